// The cell that loads a known value, written where its command stood.
ghost use Rattle.std.specs.Prelude.{◌≡◌, ◌/◌, ◌<◌, length};
ghost use Rattle.cells.specs.View.{load_bytes};
ghost use Rattle.crystalfold.specs.Fold.{one_if};
ghost use Rattle.machine.specs.Values.{written_of};
ghost use Rattle.crystalfold.specs.Rules.{known_of};
ghost use Rattle.crystalfold.specs.InPlace.{PutLoad, load_or_zeros};

use cells::read;
use leaves::constant::ConstVal;
use leaves::float;

// The load commands.
const LOAD_BOOL: u8 = 0x28;

const LOAD_F64: u8 = 0x29;

const LOAD_FX: u8 = 0x2A;

const LOAD_I32: u8 = 0x2B;

const LOAD_Q: u8 = 0x2C;

const LOAD_U32: u8 = 0x2E;

// Each fold counts 1.
const FOLD: usize = 1;

// Writes the load of v, if it is known, over the cell at the position k.
pub fn put_load(s: &mut [u8], k: usize, dst: usize, v: ConstVal)
    requires { (k < length s.old / 16) × (dst < 65536) }
    ensures { PutLoad k dst s.old s.new v }
{
    if let ConstVal::Unknown = v {
        return;
    }
    let cell = load_cell(dst, v);
    read::put_cell(&cell, 0, s, k);
}

// The folds that a command with this value is.
pub fn one_if(v: ConstVal) -> usize
    ensures { result ≡ one_if (written_of v) }
{
    match v {
        ConstVal::Unknown => 0,
        _ => FOLD,
    }
}

// The load of v into dst: the command, dst, the value's bits and zeros. Of an unknown value there is none, and
// all is zero. The bits are those of v: read back, they give it.
pub fn load_cell(dst: usize, v: ConstVal) -> [u8; 16]
    requires { dst < 65536 }
    ensures { (result ≡ load_or_zeros dst (written_of v)) × (known_of (written_of v) ≡ v) }
{
    match v {
        ConstVal::Unknown => [0; 16],
        ConstVal::Quad(q) => load(LOAD_Q, dst, u64::from(u8::from(q))),
        ConstVal::Bool(b) => load(LOAD_BOOL, dst, u64::from(b)),
        ConstVal::F64(x) => load(LOAD_F64, dst, float::to_bits(x)),
        ConstVal::I32(a) => load(LOAD_I32, dst, u64::from(a.cast_unsigned())),
        ConstVal::U32(a) => load(LOAD_U32, dst, u64::from(a)),
        ConstVal::Fx(a) => load(LOAD_FX, dst, u64::from(a.cast_unsigned())),
    }
}

// The command, dst, and n at 8 bytes: those that the value's kind has not are zero.
fn load(command: u8, dst: usize, n: u64) -> [u8; 16]
    requires { dst < 65536 }
    ensures { result ≡ load_bytes command dst 8 n }
{
    let [low, high] = (dst as u16).to_le_bytes();
    let [a, b, c, d, e, f, g, h] = n.to_le_bytes();
    [command, low, high, a, b, c, d, e, f, g, h, 0, 0, 0, 0, 0]
}
