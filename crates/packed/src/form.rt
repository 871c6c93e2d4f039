// What a cell is by the cells that its head promised, and how many bytes of it are kept.
ghost use Rattle.std.specs.Prelude.{◌≡◌, ◌*◌, ◌≤◌, length};
ghost use Rattle.packed.specs.Form.{promise, role_of, row_size, size as «size_of»};
ghost use Rattle.packed.specs.Steps.{size_digits, NextCell};

use cells::{check, read};

// How many instruction cells and event cells are promised.
#[derive(Clone, Copy)]
pub struct Due {
    pub code: usize,
    pub events: usize,
}

// The next cell: how many bytes it keeps, and what is promised behind it.
#[derive(Clone, Copy)]
pub struct Next {
    pub size: usize,
    pub due: Due,
}

// A head's row in the table of commands.
pub const HEAD_ROW: usize = 0x53;

// What a head and an event keep.
pub const HEAD_SIZE: usize = check::HEAD_BYTES;

pub const EVENT_SIZE: usize = 15;

impl Due {
    // Nothing.
    pub const NONE: Due = Due { code: 0, events: 0 };

    // The cell at the start of s, where this is promised.
    pub fn next_cell(self, s: &[u8]) -> Next
        requires { size_of (role_of (promise self.code self.events)) s.now ≤ length s.now }
        ensures { NextCell self.code self.events s.now result }
    {
        if self.code != 0 {
            return Next {
                size: size_at(usize::from(s[0])),
                due: Due {
                    code: self.code - 1,
                    events: self.events,
                },
            };
        }
        if self.events != 0 {
            return Next {
                size: EVENT_SIZE,
                due: Due {
                    code: self.code,
                    events: self.events - 1,
                },
            };
        }
        Next {
            size: HEAD_SIZE,
            due: Due {
                code: read::half(s, 3),
                events: read::half(s, 5),
            },
        }
    }
}

// How many bytes a cell of a row keeps, if one of the row before keeps so many. (Where the rows are the same, nothing waits for the table.)
pub fn size_again(row: usize, before: usize, size: usize) -> usize
    requires { size ≡ row_size before }
    ensures { result ≡ row_size row }
{
    if row == before {
        return size;
    }
    size_at(row)
}

// How many bytes a cell of a row keeps. A byte that is no command keeps nothing behind itself.
pub fn size_at(row: usize) -> usize
    ensures { result ≡ row_size row }
{
    (sizes_from(row / 16) >> (4 * (row % 16))) % 16
}

// The sizes of sixteen rows, a hexadecimal digit each, the first row's the lowest. (An array would be set up anew at each call, and a `match` with
// an arm a row is a call at each cell.)
fn sizes_from(sixteen: usize) -> usize
    ensures { result ≡ size_digits 16 (16 * sixteen) }
{
    match sixteen {
        0 => 0x5574335377383831, // rows 0F to 00; no command has the byte 00
        1 => 0x7777777757797775, // rows 1F to 10
        2 => 0x575477b477777777, // rows 2F to 20
        3 => 0x5777777993755c7d, // rows 3F to 30
        4 => 0x77f7755577975777, // rows 4F to 40
        5 => 0x1111111111117f77, // rows 5F to 50: none above 53, a head's, 52 is an event's
        _ => 0x1111111111111111,
    }
}
