//! Forms whose parts are known where recursive ascent is built: its modules, its parsers, and the
//! arms of a state.

ghost use Rattle.std.specs.Prelude.{◌≡◌, true, false, [], ◌∷◌, ◌++◌, IfOk, OnOk};
ghost use Rattle.std.specs.List.{flat_map};
ghost use Rattle.lp_build.specs.Ascent.{but_header, header_parts};
ghost use Rattle.lp_build.specs.Built.{over};
ghost use Rattle.lp_build.specs.Functions.{parser_part};
ghost use Rattle.lp_tree.specs.ProgramTree.{head, is_part, items, parts_below};

use lp_form::Part;
use lp_tree::{Name, Node, Piece};
use std::alloc::{AllocError, Global};

/// A part of one text.
fn text_row<'t>(alloc: Global, part: Part, text: Piece<'t>) -> Result<Node<'t>, AllocError>
    ensures head { IfOk result (λ n. head n ≡ (part, text.entry ∷ [], [])) }
    ensures below { IfOk result (λ n. parts_below n ≡ []) }
{
    Node::leaf(alloc, part, vec![in alloc; text]?)
}

/// The items of recursive ascent.
fn ascent_rows<'t>(alloc: Global, nodes: Vec<Node<'t>>) -> Result<Node<'t>, AllocError>
    ensures { IfOk result (λ n. items n ≡ over Part.AscentItems [] (flat_map items nodes.entry.items)) }
{
    let mut node = Node::leaf(alloc, Part::AscentItems, Vec::new(alloc))?;
    node.add_all(nodes)?;
    Ok(node)
}

/// The module of a start nonterminal, of recursive ascent: what stands before the items, and the
/// items.
pub fn module_of<'t>(
    alloc: Global,
    start: Name<'t>,
    below: Vec<Node<'t>>,
    rows: Vec<Node<'t>>,
) -> Result<Node<'t>, AllocError>
    ensures { IfOk result (λ n. items n ≡ over Part.ParseModule (start.entry ∷ []) (flat_map items below.entry.items ++ over Part.AscentItems [] (flat_map items rows.entry.items))) }
{
    let mut node = text_row(alloc, Part::ParseModule, start.into_piece())?;
    node.add_all(below)?;
    node.add(ascent_rows(alloc, rows)?)?;
    Ok(node)
}

/// The parser by recursive ascent, of tokens that are interned or handed in.
fn parser_part(interned: bool) -> Part
    ensures { result ≡ parser_part true interned }
{
    if interned {
        Part::AscentParserInterned
    } else {
        Part::AscentParserPlain
    }
}

/// A parser by recursive ascent: the visibility of its rule, its public name, and whether the grammar
/// is interned. Below it stands what is below another parser.
pub fn parser_of<'t>(
    alloc: Global,
    visibility: Piece<'t>,
    public_name: Name<'t>,
    interned: bool,
    other: Node<'t>,
) -> Result<Node<'t>, AllocError>
    ensures { IfOk result (λ n. items n ≡ over (parser_part true interned) (visibility.entry ∷ public_name.entry ∷ []) (parts_below other.entry)) }
{
    let part = parser_part(interned);
    let holes = vec![in alloc; visibility, public_name.into_piece()]?;
    let mut node = Node::leaf(alloc, part, holes)?;
    node.add_below(other)?;
    Ok(node)
}

/// Puts a node behind others.
pub fn put<'t>(nodes: &mut Vec<Node<'t>>, node: Node<'t>) -> Result<(), AllocError>
    ensures { OnOk result (flat_map items nodes.new.items ≡ flat_map items nodes.old.items ++ items node.entry) }
{
    nodes.push(node)?;
    Ok(())
}

/// Puts an arm of a state, which is no header, behind others.
pub fn put_arm<'t>(nodes: &mut Vec<Node<'t>>, arm: Node<'t>) -> Result<(), AllocError>
    requires { is_part Part.HeaderState arm ≡ false }
    ensures headers { OnOk result (flat_map header_parts nodes.new.items ≡ flat_map header_parts nodes.old.items) }
    ensures arms { OnOk result (flat_map but_header nodes.new.items ≡ flat_map but_header nodes.old.items ++ items arm.entry) }
{
    nodes.push(arm)?;
    Ok(())
}
