//! Reading a whole text as a tree.

ghost use Rattle.std.specs.Prelude.{◌≡◌, ◌<◌, ◌^◌, ◌⊎◌, ℕ, length, IfOk, Ok, Err, []};
ghost use Rattle.xhstt_text.specs.Bytes.{is_white};
ghost use Rattle.xhstt_text.specs.Document.{Document, IsSpellingOf, Spelled, Spells, table};
ghost use Rattle.xhstt_text.specs.Endings.{MayEndInComment, MayEndInSpace};
ghost use Rattle.xhstt_text.specs.FlatTable.{IsTable, root_forest};
ghost use Rattle.xhstt_text.specs.Forest.{Forest};
ghost use Rattle.xhstt_text.specs.Machine.{outcome_of, run, ended, Outcome};
ghost use Rattle.xhstt_text.specs.Reading.{Leads, read_of};
ghost use Rattle.xhstt_text.specs.FirstFault.{HasFault, HasLastingFaults, IsFirstFault, IsText};
ghost use Rattle.xhstt_text.specs.declared.faults.TextFault.TheVariants.{Bad, NoMemory};

use crate::TextFault;
use crate::comments::space;
use crate::cursor::Cursor;
use crate::prolog::prolog;
use crate::table::Table;
use crate::tags::{next_tag, root, trailing};
use crate::tree::Tree;
use fault_tables::NOT_UTF8;
use khe_base::Seq;
use std::alloc::Global;

// Reads all tags: what was read, and the place after the last tag.
fn tags<'a>(alloc: Global, bytes: &'a [u8]) -> Result<(Table<'a>, Cursor<'a>), TextFault>
    requires { length bytes.now < 2 ^ 32 }
    ensures { Leads result (outcome_of bytes.now) (λ found. run ended (read_of [] found.0.nodes.items found.0.attributes.items) found.1.at found.1.rest.now) }
{
    let mut table = Table {
        nodes: Vec::new(alloc),
        attributes: Vec::new(alloc),
        stack: Vec::new(alloc),
    };
    let start = Cursor { at: 0, rest: bytes };
    let body = prolog(start)?;
    let mut here = root(alloc, body, &mut table)?;
    'tags: while let Some(inner) = table.stack.pop() {
        here = next_tag(alloc, here, &inner, &mut table)?;
    }
    Ok((table, here))
}

// The machine's answer.
fn read<'a>(alloc: Global, bytes: &'a [u8]) -> Result<Tree<'a>, TextFault>
    requires { length bytes.now < 2 ^ 32 }
    ensures exact { Leads result (outcome_of bytes.now) (λ tree. Ok (record { nodes = tree.nodes; attributes = tree.attributes })) }
    ensures bytes { IfOk result (λ tree. tree.bytes.now ≡ bytes.now) }
{
    let (table, here) = tags(alloc, bytes)?;
    let end = space(here)?;
    if !end.rest.is_empty() {
        return Err(trailing(end));
    }
    let Table {
        nodes,
        attributes,
        stack: _,
    } = table;
    Ok(Tree {
        bytes,
        nodes: Seq { items: nodes },
        attributes: Seq { items: attributes },
    })
}

/// Reads a text as the tree of its elements.
///
/// A text is UTF-8. It may begin with a byte order mark, and then with a declaration,
/// `<?xml ..?>`. It has one element, and white and comments around it. An element is
/// `<name ..>`, content and `</name>`, or `<name ../>`; content is white, characters other than
/// `<` and `&`, references, comments and elements; at most 32 elements are open at once. No two
/// attributes of an element have one name.
///
/// A reference is `&lt;`, `&gt;`, `&amp;`, `&apos;` or `&quot;`, or `&#` or `&#x` with the digits of a
/// number and `;`. Characters, and these numbers, are U+0009, U+000A, U+000D, U+0020 to U+D7FF,
/// U+E000 to U+FFFD, and U+10000 to U+10FFFF.
///
/// `Bad` comes exactly where the bytes spell no such text, with the first fault, unless memory is
/// refused. `NOT_UTF8` comes before all other kinds, wherever it stands. Else the bytes are read from
/// left to right up to the first fault:
///
/// - `UNSUPPORTED` at the `<` of `<!DOCTYPE`, of `<![CDATA[`, or of `<?` after the place of the
///   declaration, where a tag or a comment may begin; and at a `:` straight after a name;
/// - `TOO_DEEP` at a `<` inside 32 open elements with the first byte of a name after it;
/// - `MISMATCHED_END` at the `<` of an end tag, once it is whole, that has another name than the
///   innermost open element;
/// - `BAD_REFERENCE` at an `&` in content or in a value from which the bytes spell no reference; but not
///   where all bytes from it to the end are the beginning of the spelling of one, or are the whole
///   spelling of a number that gives no character;
/// - `BAD_MARKUP` at the second of two equal attribute names of one element, at its first byte; at each
///   other byte that cannot go on; and at the length of the bytes where they end too early.
///
/// The tree borrows the bytes. The time grows with the length of the bytes, and with the logarithm of
/// the number of attributes of one element.
pub fn elements<'a>(alloc: Global, bytes: &'a [u8]) -> Result<Tree<'a>, TextFault>
    requires { length bytes.now < 2 ^ 32 }

    // The tree is the one that the bytes spell, and they spell no other.
    ensures found { IfOk result (λ tree. Spells bytes.now (record { nodes = tree.nodes; attributes = tree.attributes })) }
    ensures only { IfOk result (λ tree. (d : Document) → IsSpellingOf bytes.now d → table d ≡ record { nodes = tree.nodes; attributes = tree.attributes }) }
    ensures bytes { IfOk result (λ tree. tree.bytes.now ≡ bytes.now) }

    // Its rows keep the bounds of a table, and stand for the forest that the bytes spell.
    ensures table { IfOk result (λ tree. IsTable tree) }
    ensures spelled { IfOk result (λ tree. Spelled bytes.now (root_forest tree)) }
    ensures one_forest { IfOk result (λ tree. (f : Forest) → Spelled bytes.now f → root_forest tree ≡ f) }

    // A fault is the first one of the bytes, and it is answered unless memory is refused.
    ensures exact { (kind at : ℕ) → result ≡ Err (Bad kind at) → IsFirstFault bytes.now kind at }
    ensures answered { (kind at : ℕ) → IsFirstFault bytes.now kind at → (result ≡ Err (Bad kind at)) ⊎ (result ≡ Err NoMemory) }

    // Bytes spell a text or have a first fault, which is only one, and never both.
    ensures decided { IsText bytes.now ⊎ HasFault bytes.now }
    ensures one_fault { (kind at other place : ℕ) → IsFirstFault bytes.now kind at → IsFirstFault bytes.now other place → (kind ≡ other) × (at ≡ place) }
    ensures not_spelled { (kind at : ℕ) → IsFirstFault bytes.now kind at → (d : Document) → IsSpellingOf bytes.now d → ⊥ }
    ensures lasting { HasLastingFaults bytes.now }

    // What they spell they spell with white and comments after them too.
    ensures space_after { MayEndInSpace bytes.now }
    ensures comment_after { MayEndInComment bytes.now }
{
    match str::from_utf8(bytes) {
        Ok(_) => read(alloc, bytes),
        Err(error) => Err(TextFault::Bad {
            kind: NOT_UTF8,
            at: error.valid_up_to() as u64,
        }),
    }
}
