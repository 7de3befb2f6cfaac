//! Lemmas on the definitions of this crate, and examples, each stated as the contract of a function
//! with an empty body. [`dicomdir::laws`] defines when a directory is linked to a tree.
ghost use Rattle.dicomdir_writing.specs.Examples.{OneImageHasNodes, RowsAreGrouped, InactiveRecords, OneImageIsLinked, OneImageFaults, PreambleCounts, RecordFaults, NoRowsAreLinked, PositionsAreAssigned, SizesAreTrue};
ghost use Rattle.dicomdir_writing.specs.Laws.{FiledHasRow, PathsNameRecords, KeysFit, NativeAloneAreAllowed, OneRow, OneDescribedRow, DescriptionsCostNoRow, WrittenIsLinked};

/// Example: the directory of one image, given byte by byte, is linked to the tree of its row.
#[tactic(auto, using(crate::proofs::Examples::one_image_is_linked))]
pub fn one_image_is_linked()
    ensures { OneImageIsLinked }
{}

/// Example: with offsets that are counted from the end of the preamble, the directory of one image
/// is linked to no tree.
#[tactic(auto, using(crate::proofs::Examples::preamble_counts))]
pub fn preamble_counts()
    ensures { PreambleCounts }
{}

/// Examples: the first fault, and its position, of the directory of one image with one of its
/// offsets changed.
#[tactic(auto, using(crate::proofs::Examples::one_image_faults))]
pub fn one_image_faults()
    ensures { OneImageFaults }
{}

/// Examples: rows are grouped in the order in which their keys are first seen, the padding of keys
/// is ignored, and duplicates are omitted.
#[tactic(auto, using(crate::proofs::Examples::rows_are_grouped))]
pub fn rows_are_grouped()
    ensures { RowsAreGrouped }
{}

/// Examples: the fault, and its position, of a missing or wrong element of the root or of a record,
/// and of a record whose type does not fit its level.
#[tactic(auto, using(crate::proofs::Examples::record_faults))]
pub fn record_faults()
    ensures { RecordFaults }
{}

/// Example: the directory of no rows has 320 bytes and is linked to the empty tree.
pub fn no_rows_are_linked()
    ensures { NoRowsAreLinked }
{}

/// Examples: sizes, record positions and bytes of the directories of one image, of two images and
/// of no rows; and the duplicate among four rows.
#[tactic(auto, using(crate::proofs::Examples::positions_are_assigned))]
pub fn positions_are_assigned()
    ensures { PositionsAreAssigned }
{}

/// The directory of any rows has the size for which its offsets are computed, and one record for
/// each node of the tree.
pub fn sizes_are_true()
    ensures { SizesAreTrue }
{}

/// Examples: the offsets of inactive records are followed like others, but neither they nor the
/// records below them are in the tree.
#[tactic(auto, using(crate::proofs::Examples::inactive_records))]
pub fn inactive_records()
    ensures { InactiveRecords }
{}

/// Example: the directory of one image has four records, at known positions and levels.
#[tactic(auto, using(crate::proofs::Examples::one_image_has_nodes))]
pub fn one_image_has_nodes()
    ensures { OneImageHasNodes }
{}

/// A file determines its row, or why it has none, for each set of accepted transfer syntaxes.
pub fn one_row_of_a_file()
    ensures { OneRow }
{}

/// A file also determines its row with Series Description, or why it has none.
pub fn one_described_row_of_a_file()
    ensures { OneDescribedRow }
{}

/// A file that has a row without Series Description also has one with it, however long that value
/// is.
pub fn descriptions_cost_no_row()
    ensures { DescriptionsCostNoRow }
{}

/// If no transfer syntax is accepted besides the two native ones, File Meta Information has the
/// faults that `part10::read_meta` returns.
#[tactic(auto, using(crate::proofs::OtherSyntaxesFail::native_alone))]
pub fn native_alone_are_allowed()
    ensures { NativeAloneAreAllowed }
{}

/// Values within the limits with which a file is read are within the limits of a row.
pub fn keys_fit_their_rooms()
    ensures { KeysFit }
{}

/// A file that this product stored in an accepted transfer syntax, with a complete data set within
/// the limits of a row, gives the row of its SOP class, SOP instance, transfer syntax and keys, or
/// the error with the first required key that is missing.
pub fn a_filed_instance_has_its_row()
    ensures { FiledHasRow }
{}

/// The directory that is written for rows is linked to their tree, which has every record, and has
/// no fault.
#[tactic(auto, using(crate::proofs::WrittenLinked::written_is_linked))]
pub fn written_is_linked()
    ensures { WrittenIsLinked }
{}

/// Examples: the paths along the offsets of a directory lead to its records in order; an offset
/// back to a record above makes a cycle, an offset to another record that was reached is the fault
/// `TwiceReached`.
#[tactic(auto, using(crate::proofs::Examples::paths_name_records))]
pub fn paths_name_records()
    ensures { PathsNameRecords }
{}
