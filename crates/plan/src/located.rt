ghost use Rattle.plan.specs.Words.{IsBytes};
ghost use Rattle.plan.specs.Inner.{AreasOf};

use super::layout::Areas;

// A file that the rules 1 to 6 let pass, and where its areas are. That a slice of bytes holds bytes is known where it
// is at hand, not where it is a field: so it is said here.
#[derive(Clone, Copy)]
pub struct Located<'a> {
    pub file: &'a [u8],
    pub areas: Areas,
    ghost bytes: { IsBytes file.now },
    ghost placed: { AreasOf file.now areas },
}
