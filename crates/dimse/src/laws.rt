//! Lemmas on the definitions of this crate, and examples, each stated as the contract of a function
//! with an empty body.
ghost use Rattle.std.specs.Prelude.{◌≡◌, ◌≤◌, ◌∷◌, ◌++◌, [], ◌*◌, ◌-◌, ◌^◌, ℕ, true, false, List, Option, Some, None, Ok, Err, length, take, drop, codes};
ghost use Rattle.dimse.specs.Command.{CommandRecord, CommandText, c_echo, c_store};
ghost use Rattle.dimse.specs.Messages.{Started, InCommand, IsMessage, Message, NoMessage, Pdv, messages, messages_from, with_message};
ghost use Rattle.dimse.specs.MessageLaws.{BeginsWith, MessagesContinue};
ghost use Rattle.dimse.specs.declared.fault.DimseFault.TheVariants.{BadCommand, CommandTooLong, OtherContext, UnknownField, WrongKind};
ghost use Rattle.dimse.specs.Reading.{command_in};
ghost use Rattle.pdu.specs.Texts.{data_text};
ghost use Rattle.dimse.specs.Worked.{after_status, cause, other_class_elements, echo, echo_record, echo_reply, group_length, instance_123, other_instance_elements, pdv, store, store_in_parts, store_record, stored, undefined_length_elements};
ghost use Rattle.dimse.specs.declared.detail.Detail.{Detail};
ghost use Rattle.dimse.specs.Detail.{class_mismatch, instance_mismatch};
ghost use Rattle.dimse.specs.Status.{cannot_understand, class_not_supported, data_set_mismatch, out_of_resources, success};
ghost use Rattle.dimse.specs.Reply.{IsFragmented, fragments, reply_bytes, reply_command};
ghost use Rattle.dimse.specs.ReplyLaws.{EachReplyHasABound, LastResponses, LongerResponses, RepliesAreShort, ResponsesKeepTheField, ResponsesKeepTheStatus, ResponsesReadBack};

use crate::command::Command;
use crate::detail::{CLASS_MISMATCH, INSTANCE_MISMATCH};
use crate::status::{
    CANNOT_UNDERSTAND, CLASS_NOT_SUPPORTED, DATA_SET_MISMATCH, OUT_OF_RESOURCES, SUCCESS,
};

/// A byte string encodes at most one command.
pub fn one_command()
    ensures { (text : List ℕ) (a b : CommandRecord) → CommandText a text → CommandText b text → a ≡ b }
{}

/// There is exactly one way to divide a command set into fragments of a given size, of which the
/// last may be shorter.
pub fn one_cut()
    ensures cut { (size : ℕ) (text : List ℕ) → 1 ≤ size → IsFragmented size text (fragments size text) }
    ensures only { (size : ℕ) (text : List ℕ) (cut : List (List ℕ)) → 1 ≤ size → IsFragmented size text cut → cut ≡ fragments size text }
{}

/// Bounds of a response: its command set has at most 242 bytes. The P-DATA-TF PDUs that carry it
/// have at most 1,706 bytes together if the peer's maximum length is 0 or allows fragments of two
/// bytes, and at most 3,158 for any maximum length.
pub fn replies_are_short()
    ensures command { (text : List ℕ) (command : CommandRecord) (status : ℕ) (detail : Option Detail) → command_in text ≡ Ok command → length (reply_command command status detail) ≤ 242 }
    ensures reply { RepliesAreShort }
    ensures any { EachReplyHasABound }
{}

/// A response can be read back: its command set has the elements of which it was made, with the
/// command field and the status; its PDUs are those of the fragments of that set in order.
pub fn responses_read_back()
    ensures elements { ResponsesReadBack }
    ensures field { ResponsesKeepTheField }
    ensures status { ResponsesKeepTheStatus }
    ensures longer { LongerResponses }
    ensures last { LastResponses }
{}

/// A list of presentation data values that begins with the fragments of a message has that message
/// as its first. The first message of a list has its fragments at the front, and the later messages
/// are those of the rest. The messages of a list stay the same when more values follow.
pub fn messages_are_joined()
    ensures message { (room : ℕ) (m : Message) (commands sets more : List Pdv) → IsMessage room m commands sets
        → messages room ((commands ++ sets) ++ more) ≡ with_message m (messages room more) }
    ensures only { (room : ℕ) (ps : List Pdv) (m : Message) (later : List Message) → (messages room ps).whole ≡ m ∷ later → BeginsWith room m later ps }
    ensures continued { MessagesContinue }
{}

/// Examples of messages: a C-ECHO-RQ in two fragments; its second fragment in another presentation
/// context; a fragment of a data set after the first one, in the same context and in another; a
/// command set above the limit; a C-STORE-RQ with its data set in three fragments, and the first
/// fragment of another message; a command set where a data set is required; a truncated command
/// set.
pub fn worked_messages()
    ensures whole { messages 1024 (pdv 1 1 (take 10 echo) ∷ pdv 1 3 (drop 10 echo) ∷ [])
        ≡ record { whole = record { context = 1; command = echo; set = [] } ∷ []; started = NoMessage; fault = None } }
    ensures other_context { (messages 1024 (pdv 1 1 (take 10 echo) ∷ pdv 3 3 (drop 10 echo) ∷ [])).fault ≡ Some OtherContext }
    ensures other_kind { (messages 1024 (pdv 1 1 (take 10 echo) ∷ pdv 1 2 (drop 10 echo) ∷ [])).fault ≡ Some WrongKind }
    ensures context_before_kind { (messages 1024 (pdv 1 1 (take 10 echo) ∷ pdv 3 2 (drop 10 echo) ∷ [])).fault ≡ Some OtherContext }
    ensures too_long { (messages 67 (pdv 1 1 (take 10 echo) ∷ pdv 1 3 (drop 10 echo) ∷ [])).fault ≡ Some CommandTooLong }
    ensures with_set { messages 1024 store_in_parts ≡ record { whole = stored ∷ []; started = InCommand 7 (0 ∷ []); fault = None } }
    ensures command_in_set { (messages 1024 (pdv 5 3 store ∷ pdv 5 3 echo ∷ [])).fault ≡ Some WrongKind }
    ensures unreadable { (messages 1024 (pdv 1 3 (take 66 echo) ∷ [])).fault ≡ Some BadCommand }
{}

/// Examples of commands: a C-ECHO-RQ is read; with another Command Group Length, with another
/// Command Field, or with a data set it is rejected.
pub fn worked_commands()
    ensures read { command_in echo ≡ Ok echo_record }
    ensures other_count { command_in (take 8 echo ++ 54 ∷ drop 9 echo) ≡ Err BadCommand }
    ensures other_field { command_in (take 46 echo ++ 32 ∷ drop 47 echo) ≡ Err UnknownField }
    ensures with_data { command_in (take 66 echo ++ 2 ∷ drop 67 echo) ≡ Err WrongKind }
{}

/// Examples of responses: to a C-ECHO in one PDU; in 39 PDUs of 14 bytes for a peer with a maximum
/// length of 8 or 9; in one PDU for a peer with the greatest maximum length; and to a C-STORE, with
/// a Command Group Length of 88.
pub fn worked_responses()
    ensures one { reply_bytes echo_record 0x0000 None 1 0 ≡ echo_reply }
    ensures many { length (reply_bytes echo_record 0x0000 None 1 8) ≡ 39 * 14 }
    ensures first { take 14 (reply_bytes echo_record 0x0000 None 1 8) ≡ data_text 1 true false (0 ∷ 0 ∷ []) }
    ensures last { drop (38 * 14) (reply_bytes echo_record 0x0000 None 1 8) ≡ data_text 1 true true (0 ∷ 0 ∷ []) }
    ensures odd { reply_bytes echo_record 0x0000 None 1 9 ≡ reply_bytes echo_record 0x0000 None 1 8 }
    ensures greatest { reply_bytes echo_record 0x0000 None 1 (2 ^ 32 - 1) ≡ echo_reply }
    ensures store { take 12 (reply_command store_record 0x0000 None) ≡ 0 ∷ 0 ∷ 0 ∷ 0 ∷ 4 ∷ 0 ∷ 0 ∷ 0 ∷ 88 ∷ 0 ∷ 0 ∷ 0 ∷ [] }
{}

/// Examples of causes in responses: a fault without a tag; a value of undefined length; another SOP
/// instance; another SOP class. A response with another status reports no cause, nor does one to a
/// C-ECHO.
pub fn worked_causes()
    ensures overrun { after_status 0xc000 (cause 17 0 0) ≡ 0 ∷ 0 ∷ 2 ∷ 9 ∷ 16 ∷ 0 ∷ 0 ∷ 0 ∷ (codes "fault 17 Overrun" ++ instance_123) }
    ensures overrun_length { group_length 0xc000 (cause 17 0 0) ≡ 112 }
    ensures undefined { after_status 0xc000 (cause 14 0x7fe0 0x0010) ≡ undefined_length_elements ++ instance_123 }
    ensures undefined_length { group_length 0xc000 (cause 14 0x7fe0 0x0010) ≡ 132 }
    ensures instance { after_status 0xa900 (cause 46 0x0008 0x0018) ≡ other_instance_elements ++ instance_123 }
    ensures instance_length { group_length 0xa900 (cause 46 0x0008 0x0018) ≡ 134 }
    ensures class { after_status 0xa900 (cause 45 0x0008 0x0016) ≡ other_class_elements ++ instance_123 }
    ensures class_length { group_length 0xa900 (cause 45 0x0008 0x0016) ≡ 130 }
    ensures other_status { after_status 0x0122 (cause 17 0x0008 0x0016) ≡ instance_123 }
    ensures echo { reply_bytes echo_record 0xc000 (cause 17 0 0) 1 0 ≡ reply_bytes echo_record 0xc000 None 1 0 }
{}

/// Returns the constants `C_STORE` and `C_ECHO` of [`Command`], which equal those of the
/// definitions.
pub fn command_fields() -> [u16; 2]
    ensures { result ≡ c_store ∷ c_echo ∷ [] }
{
    [Command::C_STORE, Command::C_ECHO]
}

/// The constants of [`status`](crate::status) and the numbers of the mismatches equal those of the
/// definitions.
pub fn statuses_and_causes()
    ensures success { SUCCESS ≡ success }
    ensures class_not_supported { CLASS_NOT_SUPPORTED ≡ class_not_supported }
    ensures out_of_resources { OUT_OF_RESOURCES ≡ out_of_resources }
    ensures data_set_mismatch { DATA_SET_MISMATCH ≡ data_set_mismatch }
    ensures cannot_understand { CANNOT_UNDERSTAND ≡ cannot_understand }
    ensures class_mismatch { CLASS_MISMATCH ≡ class_mismatch }
    ensures instance_mismatch { INSTANCE_MISMATCH ≡ instance_mismatch }
{}
