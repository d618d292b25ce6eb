// Whether the numbers of a space are all this one.
pub(crate) fn are_all(space: &[u32], number: u32) -> bool {
    space.iter().all(|other| *other == number)
}
