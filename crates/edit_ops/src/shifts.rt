//! How the number of a table's row changes where rows come and go.

ghost use Rattle.std.specs.Prelude.{◌≡◌};
ghost use Rattle.edit_ops.specs.Pointers.{shifted};

/// A row that comes into a table, or goes. Rows are counted from 1.
#[derive(Clone, Copy, Debug)]
pub enum Shift {
    /// Before this row another comes.
    Up(u8),
    /// This row goes.
    Down(u8),
}

impl Shift {
    /// What a pointer becomes; 0 and 255 stay where a row comes.
    pub fn of(self, pointer: u8) -> u8
        ensures { result ≡ shifted self pointer }
    {
        match self {
            Shift::Up(row) if row <= pointer && pointer < 255 => pointer + 1,
            Shift::Down(row) if row < pointer => pointer - 1,
            _ => pointer,
        }
    }
}
