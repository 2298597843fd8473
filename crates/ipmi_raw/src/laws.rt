//! Laws of requests and of reply texts. Each law is the contract of an empty function.
ghost use Rattle.ipmi_raw.specs.Commands.{inventory_changes, log_changes, NoneHas, OnlyReadingCommands, record_changes, resets, sensor_changes};
ghost use Rattle.ipmi_raw.specs.FreeIpmi as freeipmi_text;
ghost use Rattle.ipmi_raw.specs.Ipmitool as ipmitool_text;
ghost use Rattle.ipmi_raw.specs.Laws.{BytesAreAll, BytesStandAtPlaces, OneReply};

/// In both dialects a text represents at most one reply to a request.
#[tactic(auto, using(crate::proofs::LawLemmas::one_reply_of_ipmitool, crate::proofs::LawLemmas::one_reply_of_freeipmi))]
pub fn one_reply_of_a_text()
    ensures ipmitool { OneReply ipmitool_text.IsReplyText }
    ensures freeipmi { OneReply freeipmi_text.IsReplyText }
{}

/// In ipmitool's output of data each byte is at its position, and there is nothing else.
#[tactic(auto, using(crate::proofs::PlaceLemmas::bytes_at_places, crate::proofs::PlaceLemmas::bytes_are_all))]
pub fn bytes_stand_at_their_places()
    ensures places { BytesStandAtPlaces }
    ensures all { BytesAreAll }
{}

/// Each request has one of ten commands, which read or take a reservation. No request has a command that changes what a
/// controller stores, or how its sensors work, or that resets something (IPMI v2.0, appendix G).
#[tactic(auto, using(crate::proofs::CommandLemmas::only_reading_commands, crate::proofs::CommandLemmas::no_inventory_changes, crate::proofs::CommandLemmas::no_record_changes, crate::proofs::CommandLemmas::no_log_changes, crate::proofs::CommandLemmas::no_sensor_changes, crate::proofs::CommandLemmas::no_resets))]
pub fn only_reading_commands()
    ensures reading { OnlyReadingCommands }
    ensures inventories { NoneHas inventory_changes }
    ensures records { NoneHas record_changes }
    ensures log { NoneHas log_changes }
    ensures sensors { NoneHas sensor_changes }
    ensures resets { NoneHas resets }
{}
