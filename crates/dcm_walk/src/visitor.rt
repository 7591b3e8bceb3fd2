// What is done with the names of a walk.
ghost use Rattle.dcm_walk.specs.Visits.{Visits, name_of};

/// What a name is.
#[derive(Clone, Copy, Debug, PartialEq, Eq)]
pub enum What {
    /// Its path is too long, or the name is none that lies below the folder.
    Unfit,
    /// It is no UTF-8, so that it cannot be looked at.
    NoText,
    /// It is the part file of a run.
    PartFile,
    /// It is the folder of the output, or lies in it.
    OfOutput,
    /// It cannot be looked at.
    Unseen,
    /// It is a folder that lies too deep to be entered.
    TooDeep,
    /// It is a folder that cannot be opened, or not be listed to its end.
    Unlisted,
    /// It is neither a folder nor a regular file.
    NoFile,
    /// It is a regular file of this mode.
    File { mode: u32 },
}

/// A name.
#[derive(Clone, Copy)]
pub struct Named<'a> {
    /// The name, or its first 4,096 bytes.
    pub name: &'a [u8],
    /// What its output is named after, and what a share of the names is chosen by: the name without a `./` at its front,
    /// or that of its first 4,096 bytes.
    pub relative: &'a [u8],
    /// Where it lies.
    pub path: &'a [u8],
}

/// A walk that was stopped by its visitor. Why, the visitor knows.
#[derive(Clone, Copy, Debug, PartialEq, Eq)]
pub struct Stopped;

/// What is done with each name that is not entered, where lines are told to E.
pub trait Visitor<S, E> {
    /// What a visit may answer, and what it may leave of the visitor, of what lines are told to, and of the system.
    ghost visits: { Visits (Self × E) S };

    /// Does what is to be done with a name. After an error no other name is visited.
    fn visit(
        &mut self,
        system: &mut S,
        errors: &mut E,
        named: Named,
        what: What,
    ) -> Result<(), Stopped>
        ensures { visits (self.old, errors.old) system.old (name_of named.entry) what result (self.new, errors.new)
            system.new };
}
