//! The files that a directory references.
ghost use Rattle.std.specs.Prelude.{◌≡◌, ℕ, List, ◌++◌, map, IfOk, IfErr};
ghost use Rattle.sequence.specs.Rules.{no_tag};
ghost use Rattle.dicomdir.specs.NodesInUse.{listed, file_id_of_image, KeptOf, HasNodes, node_of, tree_nodes, kept_in};

use crate::fault::DirFault;
use crate::file_id::FileId;
use crate::level::Level;
use crate::records::is_text;
use crate::tree::{Tree, TreeRecord};
use std::alloc::Allocator;

/// Returns the file ID of a record of type IMAGE, or `None` for any other type.
fn image_id(node: &TreeRecord) -> Option<FileId>
    ensures { listed result ≡ file_id_of_image (node_of node.now).carries }
{
    if is_text(node.kind(), Level::Image.kind()) {
        node.file_id()
    } else {
        None
    }
}

/// Returns the file ID, if any, of a record whose type is not IMAGE, so that [`kept_of`] omits it.
pub fn omitted(node: &TreeRecord) -> Option<FileId>
    ensures { file_id_of_image (node_of node.now).carries ++ listed result ≡ listed (node_of node.now).carries.file_id }
{
    if !is_text(node.kind(), Level::Image.kind()) {
        node.file_id()
    } else {
        None
    }
}

/// Returns the file IDs of the records of type IMAGE, in their order.
fn images<A: Allocator + Copy>(alloc: A, records: &[TreeRecord]) -> Result<Vec<FileId, A>, DirFault>
    ensures kept { IfOk result (λ kept. kept.items ≡ kept_in (map node_of records.now)) }
    ensures fault { IfErr result (λ f. f ≡ record { number = 67; offset = 0; tag = no_tag }) }
{
    let mut kept = Vec::new(alloc);
    for record in records {
        if let Some(file_id) = image_id(record) {
            if kept.push(file_id).is_err() {
                return Err(DirFault::out_of_memory());
            }
        }
    }
    Ok(kept)
}

/// Returns the file IDs of the IMAGE records in the tree of a directory, depth first: those in use
/// with no inactive record above them. Fails with 67 (`OutOfMemory`) if memory runs out.
pub fn kept_of<'a, A: Allocator + Copy>(
    alloc: A,
    tree: &Tree<'a, A>,
) -> Result<Vec<FileId, A>, DirFault>
    ensures kept { IfOk result (λ kept. (file : List ℕ) (has : HasNodes file (tree_nodes tree.now)) → kept.items ≡ KeptOf has.tree) }
    ensures listed { IfOk result (λ kept. kept.items ≡ kept_in (tree_nodes tree.now)) }
    ensures fault { IfErr result (λ f. f ≡ record { number = 67; offset = 0; tag = no_tag }) }
{
    images(alloc, tree.records())
}
