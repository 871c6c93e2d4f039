// The functions of an image, one after another.
ghost use Rattle.std.specs.Prelude.{◌≡◌, ◌/◌, ◌%◌, ◌<◌, length};
ghost use Rattle.std.specs.Iterator.{YieldsFirstBy, item_count};
ghost use Rattle.cells.specs.Spans.{SpanAt};
ghost use Rattle.cells.specs.Cells.{cells};
ghost use Rattle.cells.specs.Functions.{functions, function_of};

use crate::read;
use crate::read::CELL;

// Which cells of a function, besides its head.
#[derive(Clone, Copy)]
pub enum Part {
    Code,
    Events,
}

// Where the parts of a function stand among an image's bytes: its head from `head` on, its instruction cells from `code` on, its event
// cells from `events` on, and at `end` the next function.
#[derive(Clone, Copy)]
pub struct Span {
    pub head: usize,
    pub code: usize,
    pub events: usize,
    pub end: usize,
}

// The function whose head is the cell at. Of the cells that the head promises it has those that the image holds.
pub fn function_at(image: &[u8], at: usize) -> Span
    requires { at < length image.now / 16 }
    ensures { SpanAt image.now at result }
{
    let size = CELL * (image.len() / CELL);
    let head = CELL * at;
    let code = head + CELL;
    let cell = &image[head..code];
    let events = code + (size - code).min(CELL * read::half(cell, 3));
    let end = events + (size - events).min(CELL * read::half(cell, 5));
    Span {
        head,
        code,
        events,
        end,
    }
}

// A function of an image: its head, and of the cells that the head promises those that the image holds.
#[derive(Clone, Copy)]
pub struct Function<'a> {
    pub head: &'a [u8],
    pub code: &'a [u8],
    pub events: &'a [u8],
    // Both parts are whole cells.
    ghost code_even: { length code.now % 16 ≡ 0 },
    ghost events_even: { length events.now % 16 ≡ 0 },
}

// The functions of an image, one after another.
#[derive(Drop)]
pub struct Functions<'a>(&'a [u8]);

impl<'a> Iterator for Functions<'a> {
    type Item = Function<'a>;

    ghost next_gives = { YieldsFirstBy (λ f. function_of f.head.now f.code.now f.events.now) (λ it. functions (cells it.0.now)) };

    ghost remaining = { item_count (λ it. functions (cells it.0.now)) };

    fn next(&mut self) -> Option<Function<'a>> {
        let image = self.0;
        if image.len() < CELL {
            return None;
        }
        let span = function_at(image, 0);
        self.0 = &image[span.end..];
        Some(Function {
            head: &image[..span.code],
            code: &image[span.code..span.events],
            events: &image[span.events..span.end],
        })
    }
}

impl<'a> Functions<'a> {
    // Those of an image.
    pub fn of(image: &'a [u8]) -> Self
        ensures { result.0.now ≡ image.now }
    {
        Functions(image)
    }
}
