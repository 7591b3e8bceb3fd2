// What does one file.
ghost use Rattle.std.specs.Prelude.{◌≤◌, IfOk};
ghost use Rattle.dcm_cli.specs.Change.{change_of};
ghost use Rattle.dcm_cli.specs.Status as statuses;
ghost use Rattle.dcm_each.specs.Each as spec;

use dcm_base::{DeviceIn, DeviceOut, Watched, WriteFailed};
use dcm_files::FileKind;

/// How the work on names ended, where the output did not fail: the greatest status of files and lists.
pub type Ends = Result<u8, WriteFailed>;

/// Does files, one after another, into one output.
pub trait FileWork<I: DeviceIn, W: DeviceOut> {
    /// What is done with each, from one state of the work and of the output to later ones.
    ghost work: { spec.Work I (Self × W) };

    /// Does a file that is open, by its name and what it was opened on, and reports what is wrong with it. Answers the
    /// status. Fails where the output fails.
    fn do_file<E: DeviceOut>(
        &mut self,
        name: &[u8],
        kind: FileKind,
        input: &mut Watched<I>,
        out: &mut Watched<W>,
        errors: &mut Watched<E>,
    ) -> Ends
        ensures does { work.does name.now (change_of E.DeviceOut errors.old errors.new) (self.old, out.old)
            (self.new, out.new) (record { device = input.old; kind = kind }) result input.new }
        ensures within { IfOk result (λ status. status ≤ statuses.DEVICE) };

    /// Passes a file that cannot be opened, after that was reported.
    fn pass(&mut self, out: &Watched<W>)
        ensures { work.passes (self.old, out.now) (self.new, out.now) };
}
