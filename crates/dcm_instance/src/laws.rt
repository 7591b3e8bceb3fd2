//! Laws of the definitions. Each function takes nothing and makes no call: its contract is the law.
ghost use Rattle.dcm_instance.specs.Laws.{HeldIsFit};

/// The UID that is kept of a value that comes in pieces is the one that the whole value has, without padding, if it
/// fits.
pub fn held_is_fit()
    ensures { HeldIsFit }
{}
