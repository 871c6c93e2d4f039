// What an instruction cell is to the fold.
ghost use Rattle.std.specs.Prelude.{◌≡◌, cond, ◌+◌, ◌*◌, ◌≤◌, eqb, leb, length};
ghost use Rattle.leaves.specs.Quads.{quad_of};
ghost use Rattle.cells.specs.Cells.{cell_at};
ghost use Rattle.cells.specs.View.{read_quad};
ghost use Rattle.crystalfold.specs.Commands.{command_of, acting, optional_dst};

use cells::table::Class;
use cells::{read, table};
use leaves::constant::ConstVal;
use leaves::float;
use leaves::quad::Quad;

// A barrier; a load's dst and value; a computed command with its byte, dst, lhs and rhs; another command that writes a
// register; any other. (A computed command keeps its byte: the definition of what is computed goes by it.)
#[derive(Clone, Copy)]
pub enum Command {
    Barrier,
    Load(usize, ConstVal),
    Compute(u8, usize, usize, usize),
    Forget(usize),
    Other,
}

// Commands 01 to 10 are the barriers.
const LAST_BARRIER: u8 = 0x10;

// The command of a cell. One of a single operand reads it twice.
pub fn decode(c: &[u8]) -> Command
    requires { length c.now ≡ 16 }
    ensures { result ≡ command_of c.now }
{
    let op = c[0];
    let dst = read::half(c, 1);
    match table::class_of(op) {
        Class::NoCommand => Command::Barrier,
        Class::LoadQ => Command::Load(dst, ConstVal::Quad(read_quad(c[3]))),
        Class::LoadBool => Command::Load(dst, ConstVal::Bool(c[3] != 0)),
        Class::LoadF64 => Command::Load(
            dst,
            ConstVal::F64(float::of_bits(read::long(c, 3) as u64)),
        ),
        Class::LoadI32 => Command::Load(
            dst,
            ConstVal::I32((read::word(c, 3) as u32).cast_signed()),
        ),
        Class::LoadU32 => Command::Load(dst, ConstVal::U32(read::word(c, 3) as u32)),
        Class::LoadFx => Command::Load(dst, ConstVal::Fx((read::word(c, 3) as u32).cast_signed())),
        Class::Unary => Command::Compute(op, dst, read::half(c, 3), read::half(c, 3)),
        Class::Binary => Command::Compute(op, dst, read::half(c, 3), read::half(c, 5)),
        Class::Label => Command::Barrier,
        Class::Jmp => Command::Barrier,
        Class::JmpIf => Command::Barrier,
        Class::Ret => Command::Barrier,
        Class::Act => act(op, Command::Other),
        Class::ActDst => act(op, Command::Forget(dst)),
        Class::ActOptDst => act(op, optional_dst(c[1], read::half(c, 2))),
    }
}

pub fn decode_at(s: &[u8], k: usize) -> Command
    requires { 16 * k + 16 ≤ length s.now }
    ensures { result ≡ command_of (cell_at s.now k) }
{
    let at = read::CELL * k;
    let end = at + read::CELL;
    decode(&s[at..end])
}

// An outside action: a barrier, or what it does to the known registers.
fn act(op: u8, otherwise: Command) -> Command
    ensures { result ≡ acting (leb op 0x10) otherwise }
{
    if op <= LAST_BARRIER {
        Command::Barrier
    } else {
        otherwise
    }
}

// A dst that may be absent.
fn optional_dst(presence: u8, dst: usize) -> Command
    ensures { result ≡ optional_dst presence dst }
{
    if presence == 0 {
        Command::Other
    } else {
        Command::Forget(dst)
    }
}

// The quad of a byte; no accepted cell has a byte above 3 here.
fn read_quad(n: u8) -> Quad
    ensures { result ≡ read_quad (quad_of n) }
{
    Quad::try_from(n).unwrap_or(Quad::S)
}
