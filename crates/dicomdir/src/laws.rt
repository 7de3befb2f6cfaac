//! Lemmas on the definitions of this crate, and examples, each stated as the contract of a function
//! with an empty body.
//!
//! A directory is linked to a tree if the offsets of its records form that tree, from the root
//! down.
ghost use Rattle.std.specs.Prelude.{◌≡◌, ◌∷◌, []};
ghost use Rattle.dicomdir.specs.Examples.{FileIdsAreRead, HeaderFaults};
ghost use Rattle.dicomdir.specs.FaultNumbers.{bad_offset, cycle, twice_reached, unreached, wrong_level, bad_file_id, too_large, out_of_memory, bad_record};
ghost use Rattle.dicomdir.specs.Laws.{FileIdsAreShort, FileIdsAreReadBack, WalkersStartWithoutFault, LinkedHasNoFault, NodesAreRecords, NoFaultIsLinked, OneTreeOfFile, AcceptedHasNoFault, OneCheckFault, OneListOfNodes, LongerPathsChangeNothing, PathsNameNodes};

use crate::fault::DirFault;

/// Returns the numbers of the faults that [`DirFault`] names. They equal those of the definitions.
pub fn fault_numbers() -> [u8; 9]
    ensures { result ≡ bad_offset ∷ cycle ∷ twice_reached ∷ unreached ∷ wrong_level ∷ bad_file_id ∷ too_large ∷ out_of_memory ∷ bad_record ∷ [] }
{
    [
        DirFault::BAD_OFFSET,
        DirFault::CYCLE,
        DirFault::TWICE_REACHED,
        DirFault::UNREACHED,
        DirFault::WRONG_LEVEL,
        DirFault::BAD_FILE_ID,
        DirFault::TOO_LARGE,
        DirFault::OUT_OF_MEMORY,
        DirFault::BAD_RECORD,
    ]
}

/// Examples: a file ID has one to eight components, and spaces at the end of the value are ignored.
#[tactic(auto, using(crate::proofs::Examples::file_ids_are_read))]
pub fn file_ids_are_read()
    ensures { FileIdsAreRead }
{}

/// A valid file ID has at most 71 bytes.
pub fn file_ids_are_short()
    ensures { FileIdsAreShort }
{}

/// A valid file ID, padded to an even length, is read as itself.
pub fn file_ids_are_read_back()
    ensures { FileIdsAreReadBack }
{}

/// A walker that has read no byte has found no fault.
pub fn walkers_start_without_fault()
    ensures { WalkersStartWithoutFault }
{}

/// Examples: the faults of files without File Meta Information, or in another transfer syntax than
/// Explicit VR Little Endian.
#[tactic(auto, using(crate::proofs::Examples::header_faults))]
pub fn header_faults()
    ensures { HeaderFaults }
{}

/// The tree of a linked directory has at most as many nodes as the directory has records, and no
/// record is at position 0.
pub fn nodes_are_records()
    ensures { NodesAreRecords }
{}

/// A directory whose records are linked to a tree with every record in use has no fault.
pub fn linked_has_no_fault()
    ensures { LinkedHasNoFault }
{}

/// The records of a directory without a fault are linked to a tree with every record in use.
#[tactic(auto, using(crate::proofs::FaultFree::no_fault_is_linked))]
pub fn no_fault_is_linked()
    ensures { NoFaultIsLinked }
{}

/// A file is linked to at most one tree.
pub fn one_tree_of_a_file()
    ensures { OneTreeOfFile }
{}

/// A directory that [`check`](crate::check) accepts has no fault.
pub fn accepted_has_no_fault()
    ensures { AcceptedHasNoFault }
{}

/// A file has at most one first fault.
#[tactic(auto, using(crate::proofs::NoFault::one_check_fault))]
pub fn one_fault_of_a_check()
    ensures { OneCheckFault }
{}

/// A file determines the records that [`check`](crate::check) returns for it.
pub fn one_list_of_nodes()
    ensures { OneListOfNodes }
{}

/// Following longer paths than there are records finds the same first fault, and no further paths
/// if there is no fault.
pub fn longer_paths_change_nothing()
    ensures { LongerPathsChangeNothing }
{}

/// The paths along the offsets of a directory that is linked to a tree lead to the tree's nodes,
/// depth first.
pub fn paths_name_nodes()
    ensures { PathsNameNodes }
{}
