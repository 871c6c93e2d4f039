// The other factor of a product, by words: `factor fx WANTED FACTOR` and `factor i32 WANTED FACTOR`.
ghost use Rattle.std.specs.Prelude.{◌≡◌, ◌≤◌, length};
ghost use Rattle.input.specs.Prefix.{IsPrefixLen};
ghost use Rattle.listing.specs.Promises.{TextWritten};
ghost use Rattle.matchdesk.specs.Program.{product_for, factor_by, found_text, factor_texts};
ghost use Rattle.matchdesk.specs.Promises.{Says};

use crate::{Said, refused_line};
use cells::refusal::Numbers;
use factor::{factor_fx, factor_i32};
use input::words::same;
use listing::append;
use numbers::{put_i32, read_i32};

// Which product: that of two Fx, or that of two I32.
#[derive(Clone, Copy)]
pub enum Product {
    Fx,
    I32,
}

pub fn product_of(word: &[u8]) -> Option<Product>
    ensures { result ≡ product_for word.now }
{
    if same(word, b"fx") {
        return Some(Product::Fx);
    }
    if same(word, b"i32") {
        return Some(Product::I32);
    }
    None
}

// Reads the two numbers, and says the factor that is found, or which word is no i32. Texts stand as `run` has them.
pub fn find_factor(
    product: Product,
    wanted: &[u8],
    factor: &[u8],
    output: &mut [u8],
    error: &mut [u8],
) -> Said
    requires { (71 ≤ length output.old) × (71 ≤ length error.old) }
    ensures prefix_len { IsPrefixLen result.output output.new × IsPrefixLen result.error error.new }
    ensures says { Says (factor_texts product wanted.now factor.now) output.old output.new error.old error.new result }
{
    // The two texts differ in a word: one function for both would append in two pieces, and is no plainer than two literals.
    let Some(w) = read_i32(wanted) else {
        return Said::on_error(append(
            b"WANTED is no i32: a whole number from -2147483648 to 2147483647\n",
            error,
            0,
        ));
    };
    let Some(f) = read_i32(factor) else {
        return Said::on_error(append(
            b"FACTOR is no i32: a whole number from -2147483648 to 2147483647\n",
            error,
            0,
        ));
    };
    Said::on_output(put_found(factor_by(product, w, f), output))
}

fn factor_by(product: Product, wanted: i32, factor: i32) -> Option<i32>
    ensures { result ≡ factor_by product wanted factor }
{
    match product {
        Product::Fx => factor_fx(wanted, factor),
        Product::I32 => factor_i32(wanted, factor),
    }
}

// The line of the factor, or of the refusal.
fn put_found(found: Option<i32>, text: &mut [u8]) -> usize
    requires { 71 ≤ length text.old }
    ensures prefix_len { IsPrefixLen result text.new }
    ensures text_written { TextWritten (found_text found) text.old text.new result }
{
    match found {
        Some(z) => put_i32(z, text),
        None => {
            let numbers = Numbers {
                number: factor::REFUSAL,
                position: 0,
                detail: 0,
            };
            refused_line(numbers, text)
        }
    }
}
