// What functions hand to each other, by value; no user of the map meets it.
// What insert reads before it writes: h = next(0), b = other_end(h), n = next(h).
#[derive(Clone, Copy)]
pub struct InsertLinks {
    pub h: u32,
    pub b: u32,
    pub n: u32,
}

// The slots beside one that is removed; before and after tell whether the left and the right one are vacant.
#[derive(Clone, Copy)]
pub struct Beside {
    pub left: u32,
    pub right: u32,
    pub before: bool,
    pub after: bool,
}
