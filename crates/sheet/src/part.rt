// What a reader hands out of a sheet.

// A part of a sheet's bytes, with the offset of its first byte.
#[derive(Clone, Copy, Debug, PartialEq, Eq)]
pub struct Part<'a> {
    pub bytes: &'a [u8],
    pub place: usize,
}

// A record of a sheet: the numbers of a task, lawful or not, and its name, if it has one.
#[derive(Clone, Copy, Debug, PartialEq, Eq)]
pub struct SheetRecord<'a> {
    pub work: u32,
    pub limit: u32,
    pub gap: u32,
    pub name: Option<Part<'a>>,
}
