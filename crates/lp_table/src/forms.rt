//! Forms whose parts are known where table-driven code is built: its modules, its parsers, and the
//! rows of its reductions.

ghost use Rattle.std.specs.Prelude.{◌≡◌, false, [], ◌∷◌, ◌++◌, IfOk};
ghost use Rattle.std.specs.Fmt.{decimal};
ghost use Rattle.std.specs.List.{flat_map};
ghost use Rattle.lp_build.specs.Built.{over};
ghost use Rattle.lp_build.specs.Functions.{parser_part};
ghost use Rattle.lp_table.specs.FrameLines.{module_parts, parser_parts};
ghost use Rattle.lp_tree.specs.ProgramTree.{head, items, leaf, parts_below};

use lp_form::Part;
use lp_tree::{Name, Node, Piece};
use std::alloc::{AllocError, Global};

/// A part of one text.
fn text_row<'t>(alloc: Global, part: Part, text: Piece<'t>) -> Result<Node<'t>, AllocError>
    ensures head { IfOk result (λ n. head n ≡ (part, text.entry ∷ [], [])) }
    ensures below { IfOk result (λ n. parts_below n ≡ []) }
{
    Node::leaf(alloc, part, vec![in alloc; text]?)
}

/// A part with nothing in it but these nodes.
fn over_nodes<'t>(alloc: Global, part: Part, nodes: Vec<Node<'t>>) -> Result<Node<'t>, AllocError>
    ensures { IfOk result (λ n. items n ≡ over part [] (flat_map items nodes.entry.items)) }
{
    let mut node = Node::leaf(alloc, part, Vec::new(alloc))?;
    node.add_all(nodes)?;
    Ok(node)
}

/// The module of a start nonterminal, of table-driven code: what stands before the items, and the
/// items.
#[tactic(auto, unfolding(crate::specs::FrameLines::module_parts))]
pub fn module_of<'t>(
    alloc: Global,
    start: Name<'t>,
    below: Vec<Node<'t>>,
    rows: Vec<Node<'t>>,
) -> Result<Node<'t>, AllocError>
    ensures { IfOk result (λ n. items n ≡ module_parts start.entry (flat_map items below.entry.items) (flat_map items rows.entry.items)) }
{
    let mut node = text_row(alloc, Part::ParseModule, start.into_piece())?;
    node.add_all(below)?;
    node.add(over_nodes(alloc, Part::TableItems, rows)?)?;
    Ok(node)
}

/// The parser by tables, of tokens that are interned or handed in.
fn parser_part(interned: bool) -> Part
    ensures { result ≡ parser_part false interned }
{
    if interned {
        Part::TableParserInterned
    } else {
        Part::TableParserPlain
    }
}

/// A parser by tables: the visibility of its rule, its public name, and whether the grammar is
/// interned. Below it: the header of `parse`, the token source, and `drive`.
#[tactic(auto, unfolding(crate::specs::FrameLines::parser_parts))]
pub fn parser_of<'t>(
    alloc: Global,
    visibility: Piece<'t>,
    public_name: Name<'t>,
    interned: bool,
    below: Vec<Node<'t>>,
) -> Result<Node<'t>, AllocError>
    ensures { IfOk result (λ n. items n ≡ parser_parts interned visibility.entry public_name.entry (flat_map items below.entry.items)) }
{
    let part = parser_part(interned);
    let holes = vec![in alloc; visibility, public_name.into_piece()]?;
    let mut node = Node::leaf(alloc, part, holes)?;
    node.add_all(below)?;
    Ok(node)
}

/// A production that calls its own function: each parameter name and `, `, and the phantom
/// expression.
pub fn call_arm<'t>(
    alloc: Global,
    production: u64,
    arguments: Piece<'t>,
    phantom: Piece<'t>,
) -> Result<Node<'t>, AllocError>
    ensures { IfOk result (λ n. items n ≡ leaf Part.ReduceCallArm (decimal production ∷ arguments.entry ∷ phantom.entry ∷ [])) }
{
    let production = Piece::number(alloc, production)?;
    let holes = vec![in alloc; production, arguments, phantom]?;
    Node::leaf(alloc, Part::ReduceCallArm, holes)
}

/// A production with its body.
pub fn body_arm<'t>(alloc: Global, production: u64, body: Node<'t>) -> Result<Node<'t>, AllocError>
    ensures { IfOk result (λ n. items n ≡ over Part.ReduceBodyArm (decimal production ∷ []) (items body.entry)) }
{
    let mut row = text_row(
        alloc,
        Part::ReduceBodyArm,
        Piece::number(alloc, production)?,
    )?;
    row.add(body)?;
    Ok(row)
}

/// The function that reduces by any production: its header, and the productions in their order.
pub fn reduction_rows<'t>(alloc: Global, below: Vec<Node<'t>>) -> Result<Node<'t>, AllocError>
    ensures { IfOk result (λ n. items n ≡ over Part.Reduce [] (flat_map items below.entry.items)) }
{
    over_nodes(alloc, Part::Reduce, below)
}
