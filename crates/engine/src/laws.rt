//! Lemmas on the definitions of this crate, and examples, each stated as the contract of a function
//! with an empty body.
//!
//! The timeline of an association is the list of entries that its inputs cause: what each entry
//! sends, and does to the filing and to the state. A story is such a list with the outcome of each
//! call of a device.
ghost use Rattle.engine.specs.WholeExamples.{TheEchoRuns, TheRequestIsHeld, ItStandsEstablished, VerdictsOnStores};
ghost use Rattle.engine.specs.StoreExamples.{AStoreIsFiled, AFilingFailsOnce, ACutReply, ACloseInADataSet, HeldInADataSet};
ghost use Rattle.engine.specs.StoreVerdicts.{VerdictsOnOneImage, TheFileOfAStore};
ghost use Rattle.engine.specs.VerdictExamples.{VerdictsOnFaults};
ghost use Rattle.engine.specs.StoreLaws.{AVerdictIsThere, AVerdictIsOne, NoGoodImageIsRefused, FiledByItself};
ghost use Rattle.engine.specs.RunLaws.{EveryGoodImageIsFiled, OneRun, CutsGiveTheSame};
ghost use Rattle.engine.specs.TurnLaws.{TurnsBegin, OneTurnMore, TurnsAreARun, EndedHasNoDraft};
ghost use Rattle.engine.specs.OutputLaws.{AbortsShortly, AnswersAreShort, BoundedOutput, EntriesOfMore, FewBytesButAnswers, FewMarks, OutputOfAPiece, SilentSendsNothing, StoriesAnswerShortly};
ghost use Rattle.engine.specs.Parts.{FewerKeepTheDecision};
ghost use Rattle.engine.specs.Laws.{EntriesAppend, CutsDoNotShow, NothingAfterTheEnd};
ghost use Rattle.engine.specs.AbortLaws.{EntriesAbort, StoriesAbort};
ghost use Rattle.engine.specs.HeldLaws.{HeldIsOne, HeldIsWithinRooms};
ghost use Rattle.engine.specs.Examples.{ARequestAboveTheRoom, BytesThatAreNoPdu, DataAboveTheMaximum, AfterTheEnd, AnotherCalledTitle, RecordedEcho, HeldDuringTheEcho, AGoodPdvBeforeABadOne};

/// Further inputs append entries to the timeline and change none of the earlier ones.
pub fn timeline_only_grows()
    ensures { EntriesAppend }
{}

/// The timeline does not depend on how the received bytes are divided into pieces.
pub fn cuts_do_not_show()
    ensures { CutsDoNotShow }
{}

/// The inputs determine the run in which no device fails, however the received bytes are divided
/// into pieces.
pub fn a_run_without_failures_is_one()
    ensures { OneRun }
{}

/// Two runs in which no device fails, over the same bytes, divided in any way, and the same other
/// inputs, send the same bytes, store the same files, end in the same state and hold the same
/// number of bytes.
pub fn cuts_give_the_same()
    ensures { CutsGiveTheSame }
{}

/// After the end of the association nothing is sent or decided, and no file is stored.
pub fn nothing_after_the_end()
    ensures { NothingAfterTheEnd }
{}

/// An association that decides to abort sends an A-ABORT, and nothing after it: at each entry of the
/// timeline, and at the end of further entries of a story in which no send failed.
pub fn aborts_are_sent()
    ensures entry { EntriesAbort }
    ensures story { StoriesAbort }
{}

/// The invariant of calls of [`Association::take_next`](crate::Association::take_next) holds, for
/// zero calls, of an association that was just opened.
pub fn turns_begin()
    ensures { TurnsBegin }
{}

/// One more call of [`Association::take_next`](crate::Association::take_next), on an association
/// that has not ended, preserves the invariant of these calls.
pub fn one_turn_more()
    ensures { OneTurnMore }
{}

/// A given number of calls of [`Association::take_next`](crate::Association::take_next), or fewer
/// if the association ends earlier, have the effect that the contract of [`run`](crate::run)
/// states.
pub fn turns_are_a_run()
    ensures { TurnsAreARun }
{}

/// An association that has ended has no draft in the filing.
pub fn ended_has_no_draft()
    ensures { EndedHasNoDraft }
{}

/// One received byte completes at most four heads and ends of PDUs and presentation data values.
pub fn few_marks()
    ensures { FewMarks }
{}

/// For each received byte an association sends at most four times 30 bytes, and one answer to a
/// request or a command.
pub fn bounded_output()
    ensures { BoundedOutput }
{}

/// An entry of the timeline sends at most 30 bytes, unless it answers an A-ASSOCIATE-RQ or a DIMSE
/// message.
pub fn few_bytes_but_answers()
    ensures { FewBytesButAnswers }
{}

/// An A-ASSOCIATE-AC, and the PDUs of a response together, have at most 4,620 bytes, at each entry
/// of the timeline and in each story. So an association sends at most 18,600 bytes for each
/// received byte.
pub fn answers_are_short()
    ensures entry { AnswersAreShort }
    ensures story { StoriesAnswerShortly }
    ensures piece { OutputOfAPiece }
{}

/// The entries that one more input appends depend only on it and on the received bytes before it.
pub fn entries_of_one_more()
    ensures { EntriesOfMore }
{}

/// An association that receives fewer bytes than
/// [`Association::input_limit`](crate::Association::input_limit) keeps its last decision.
pub fn fewer_bytes_keep_the_decision()
    ensures { FewerKeepTheDecision }
{}

/// The close of the transport connection and the expiry of the ARTIM timer send nothing; an abort
/// of the local user sends at most 30 bytes.
pub fn other_inputs_send_little()
    ensures silent { SilentSendsNothing }
    ensures abort { AbortsShortly }
{}

/// The definitions determine the number of held bytes, so it is the one that
/// [`Association::held`](crate::Association::held) returns and [`run`](crate::run) reports.
pub fn the_number_of_held_bytes_is_one()
    ensures { HeldIsOne }
{}

/// Whatever is received, an association holds at most `A + C + V + 16 * D` bytes; an established
/// one holds at most 544 and those of one message.
pub fn held_is_within_the_rooms()
    ensures { HeldIsWithinRooms }
{}

/// Every C-STORE has a verdict: the status and cause of its response, and whether its data set is
/// stored.
pub fn a_verdict_is_there()
    ensures { AVerdictIsThere }
{}

/// No C-STORE has two verdicts.
pub fn a_verdict_is_one()
    ensures { AVerdictIsOne }
{}

/// A data set that is complete and within the limits, sent under its own SOP class and instance
/// UIDs in an accepted presentation context of that class, is stored and answered with Success if
/// no device fails.
pub fn no_good_image_is_refused()
    ensures { NoGoodImageIsRefused }
{}

/// Every data set as in [`no_good_image_is_refused`] that a run has received completely, with no
/// device failing during its message, has a file and a response with Success, in order among all
/// others.
pub fn every_good_image_is_filed()
    ensures { EveryGoodImageIsFiled }
{}

/// The file of a C-STORE depends only on the bytes of its message, the transfer syntax of its
/// presentation context and the sender's AE title.
pub fn a_store_is_filed_by_itself()
    ensures { FiledByItself }
{}

/// Examples: statuses and causes of C-STOREs whose data sets break a rule.
pub fn verdicts_on_faults()
    ensures { VerdictsOnFaults }
{}

/// Examples: a CT image is stored; storing it fails; its instance is not the one that the command
/// names.
pub fn verdicts_on_one_image()
    ensures { VerdictsOnOneImage }
{}

/// Example: the file of a CT image, byte for byte.
pub fn the_file_of_a_store()
    ensures { TheFileOfAStore }
{}

/// Example: an A-ASSOCIATE-RQ above the limit is rejected at its head.
pub fn a_request_above_the_room()
    ensures { ARequestAboveTheRoom }
{}

/// Example: bytes that are no PDU are answered with an A-ABORT at the sixth byte.
pub fn bytes_that_are_no_pdu()
    ensures { BytesThatAreNoPdu }
{}

/// Example: a P-DATA-TF above the announced maximum length is answered with an A-ABORT at its head.
pub fn data_above_the_maximum()
    ensures { DataAboveTheMaximum }
{}

/// Examples: in Sta13 a P-DATA-TF is dropped, an A-ASSOCIATE-RQ is answered with an A-ABORT, and
/// the expiry of the ARTIM timer ends the association.
pub fn after_the_end()
    ensures { AfterTheEnd }
{}

/// Example: an A-ASSOCIATE-RQ with another called AE title is rejected.
pub fn another_called_title()
    ensures { AnotherCalledTitle }
{}

/// Example: a recorded C-ECHO gives the recorded answer.
pub fn recorded_echo()
    ensures { RecordedEcho }
{}

/// Example: the number of held bytes while the recorded C-ECHO is received.
pub fn held_during_the_echo()
    ensures { HeldDuringTheEcho }
{}

/// Example: a message in a valid presentation data value is answered, although an invalid one
/// follows in the same PDU.
pub fn a_good_pdv_before_a_bad_one()
    ensures { AGoodPdvBeforeABadOne }
{}

/// Example: the recorded C-ECHO as a run.
pub fn the_echo_runs()
    ensures { TheEchoRuns }
{}

/// Example: the number of held bytes after an A-ASSOCIATE-RQ was accepted.
pub fn the_request_is_held()
    ensures { TheRequestIsHeld }
{}

/// Example: the state of an association after an A-ASSOCIATE-RQ was accepted.
pub fn it_stands_established()
    ensures { ItStandsEstablished }
{}

/// Examples: statuses of C-STOREs.
pub fn verdicts_on_stores()
    ensures { VerdictsOnStores }
{}

/// Example: a C-STORE is stored and answered.
pub fn a_store_is_filed()
    ensures { AStoreIsFiled }
{}

/// Example: the filing fails in one C-STORE, and the next one is stored.
pub fn a_filing_fails_once()
    ensures { AFilingFailsOnce }
{}

/// Example: if sending the response fails, the file stays.
pub fn a_cut_reply()
    ensures { ACutReply }
{}

/// Example: the transport connection is closed inside the data set of a C-STORE.
pub fn a_close_in_a_data_set()
    ensures { ACloseInADataSet }
{}

/// Example: the number of held bytes inside the data set of a C-STORE.
pub fn held_in_a_data_set()
    ensures { HeldInADataSet }
{}
