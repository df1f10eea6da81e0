// Rows and bytes as text.
ghost use Rattle.std.specs.Prelude.{◌≡◌, IfOk, string_bytes, OnOk};
ghost use Rattle.std.specs.List.{flat_map};
ghost use Rattle.report.specs.Lines.{with_relation, words, row_line, lines, hexed};

use algebra::points::Relation;
use scene::sources::{Row, Source};
use std::alloc::{AllocError, Global};

// The text, with the relation's word after it if the set holds the relation.
fn add_relation(text: &mut String, set: u8, relation: Relation) -> Result<(), AllocError>
    ensures { OnOk result (string_bytes text.new ≡ with_relation (string_bytes text.old) set relation) }
{
    if !relation.is_in(set) {
        return Ok(());
    }
    let between = if text.is_empty() { "" } else { " or " };
    write!(text, "{between}{relation}")
}

// The relations of a set in words.
pub fn in_words(heap: Global, set: u8) -> Result<String, AllocError>
    ensures { IfOk result (λ s. string_bytes s ≡ words set) }
{
    let mut text = String::new(heap);
    add_relation(&mut text, set, Relation::Before)?;
    add_relation(&mut text, set, Relation::Together)?;
    add_relation(&mut text, set, Relation::After)?;
    Ok(text)
}

// A row on a line: its position, left moment, relations in words, and right moment.
pub fn row_text(heap: Global, position: usize, row: Row) -> Result<String, AllocError>
    ensures { IfOk result (λ s. string_bytes s ≡ row_line position row) }
{
    let (left, set, right) = row;
    let words = in_words(heap, set)?;
    format!(in heap; "{position}\t{left}\t{words}\t{right}\n")
}

// The moments and rows of a source, a line each.
pub fn listing<S: Source>(heap: Global, source: &S) -> Result<String, AllocError>
    ensures { IfOk result (λ s. string_bytes s ≡ lines (S.scene source.now).moments (S.scene source.now).rows) }
{
    let moments = source.moments();
    let mut text = format!(in heap; "moments\t{moments}\n")?;
    for (position, (left, set, right)) in source.rows().enumerate() {
        // A line is made of a row with plain numbers.
        let row = (u16::from(left), set, u16::from(right));
        let line = row_text(heap, position, row)?;
        text.push_str(line.as_str())?;
    }
    Ok(text)
}

// The bytes in lower-case hexadecimal, two digits each.
#[tactic(auto, using(crate::proofs::Hexed::encoded_hexed))]
pub fn hex(heap: Global, bytes: &[u8]) -> Result<String, AllocError>
    ensures { IfOk result (λ s. string_bytes s ≡ flat_map hexed bytes.now) }
{
    hex::encode(heap, bytes)
}
