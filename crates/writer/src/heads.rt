// What stands at the head of a term, with the positions of its parts.
#[derive(Clone, Copy, PartialEq, Eq, Debug)]
pub enum Head {
    Application { left: u64, right: u64 },
    Function { body: u64 },
    Place(u8),
    Ingredient(u16),
}
