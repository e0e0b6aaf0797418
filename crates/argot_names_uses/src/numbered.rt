// From a node's number to that of its declaration.
ghost use Rattle.std.specs.Prelude.{◌≡◌, ◌<◌, ◌↔◌, ℕ, List, Some, IfOk, IfSome, IfNone, length, slice_get};
ghost use Rattle.argot_typed.specs.declared.program.Decl.{Decl};
ghost use Rattle.argot_files.specs.Parents.{put};
ghost use Rattle.argot_names_uses.specs.DeclTables.{IsOfNode, AreDeclNumbers};

use argot_text::Memory;
use argot_typed::Decl;
use std::alloc::Global;

/// Puts the number at a node, where there is one and the table has it. No memory.
pub fn note(table: &mut Vec<Option<u32>>, node: Option<u32>, number: u32)
    ensures { table.new.items ≡ put table.old.items node (Some number) }
{
    if let Some(node) = node
        && (node as usize) < table.len()
    {
        table[node as usize] = Some(number);
    }
}

// The node of the declaration of this number.
fn node_of(decls: &[Decl], number: u32) -> Option<u32>
    requires { number < length decls.now }
    ensures { (d : Decl) → slice_get decls.now number ≡ Some d → result ≡ d.node }
{
    decls[number as usize].node
}

/// For each node's number, of which there are `count`, that of its declaration.
pub fn decl_table(alloc: Global, decls: &[Decl], count: u32) -> Result<Vec<Option<u32>>, Memory>
    ensures { IfOk result (λ t. AreDeclNumbers decls.now count t.items) }
{
    let Ok(all) = u32::try_from(decls.len()) else {
        return Err(Memory);
    };
    let mut table = vec![in alloc; None; count as usize]?;
    for number in 0..all {
        note(&mut table, node_of(decls, number), number);
    }
    Ok(table)
}

/// What a table has at a number. No memory.
pub fn entry_at(table: &[Option<u32>], at: u32) -> Option<u32>
    ensures { (k : ℕ) → result ≡ Some k ↔ slice_get table.now at ≡ Some (Some k) }
{
    match table.get(at as usize) {
        Some(entry) => *entry,
        None => None,
    }
}

/// The number of the declaration that a node is, by the node's number; none where the node is none. No memory.
pub fn decl_number(table: &[Option<u32>], node: u32) -> Option<u32>
    ensures some { (decls : List Decl) (count : ℕ) → AreDeclNumbers decls count table.now
        → IfSome result (λ k. IsOfNode decls k node) }
    ensures none { (decls : List Decl) (count : ℕ) → AreDeclNumbers decls count table.now → node < count
        → IfNone result ((k : ℕ) → IsOfNode decls k node → ⊥) }
{
    entry_at(table, node)
}
