/// The buffer does not hold all of what was to be read, or a vtable's own size is under 4.
#[derive(Clone, Copy, Debug, PartialEq, Eq)]
pub struct BadTable;
