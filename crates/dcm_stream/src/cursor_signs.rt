// What is read of an open PixelRepresentation (PS3.3 C.7.6.3.1.4).
ghost use Rattle.std.specs.Prelude.{◌≡◌, [], None, option_map};
ghost use Rattle.dcm_stream.specs.Judging.{opened_sign};
ghost use Rattle.dcm_stream.specs.Reading as steps;
ghost use Rattle.dcm_stream.specs.Machine as spec;

use super::cursor::Cursor;
use super::judge::{Opening, opening_sign};
use super::sign::OpenSign;
use dcm_base::Vr;

impl Cursor {
    /// PixelRepresentation ends, where it is open.
    #[inline(always)]
    pub fn end_sign(&mut self)
        ensures { self.new ≡ record self.old {
          sign = None;
          levels = steps.sign_ends (spec.held_sign self.old) self.old.levels;
        } }
    {
        if self.sign.is_some() {
            self.end_open_sign();
        }
    }

    /// It is open, and ends: what comes in its data set is of another syntax.
    #[inline(never)]
    fn end_open_sign(&mut self)
        ensures { self.new ≡ record self.old {
          sign = None;
          levels = steps.sign_ends (spec.held_sign self.old) self.old.levels;
        } }
    {
        if let Some(sign) = self.sign.take()
            && let Some(inner) = self.levels.innermost()
        {
            self.levels.set_syntax(sign.syntax_after(inner.syntax));
        }
    }

    /// PixelRepresentation begins where that opens it.
    #[inline(always)]
    pub fn begin_sign(&mut self, opening: Opening)
        ensures sign { spec.held_sign self.new ≡ opened_sign opening }
        ensures rest { self.new ≡ record self.old { sign = self.new.sign } }
    {
        match opening_sign(opening) {
            Some(vr) => self.set_sign(Some(vr)),
            None if self.sign.is_some() => self.set_sign(None),
            None => {}
        }
    }

    /// PixelRepresentation of this representation begins, or something else opens or closes.
    #[inline(never)]
    fn set_sign(&mut self, vr: Option<Vr>)
        ensures sign { spec.held_sign self.new ≡ option_map (λ vr. record { vr = vr; first = [] }) vr }
        ensures rest { self.new ≡ record self.old { sign = self.new.sign } }
    {
        self.sign = match vr {
            Some(vr) => Some(OpenSign::new(vr)),
            None => None,
        };
    }

    /// Bytes of an open PixelRepresentation come.
    #[inline(always)]
    pub fn read_sign(&mut self, value: &[u8])
        ensures { spec.reading self.new None
            ≡ record (spec.reading self.old None) { sign = steps.sign_reads value.now (spec.held_sign self.old) } }
    {
        if let Some(sign) = &mut self.sign {
            sign.read(value);
        }
    }
}
