//! What holds of a bank's cases and counts, whatever its code.
ghost use Rattle.tl_bank_spec.specs.Counted.{EveryEventLeavesOtherCounts};
ghost use Rattle.tl_bank_spec.specs.Delivered.{EveryMessageSentWaits, EveryMessageTakenIsFirst, EveryTicketNamesTheFirst};
ghost use Rattle.tl_bank_spec.specs.Forbidden.{EveryRefusalIsTheProtocols};
ghost use Rattle.tl_bank_spec.specs.Permissions.{EveryAnswerIsItsReport, EveryGrantEndsItsGrow};

/// A call that is refused for NoPermission, Waiting, WrongFrom, NothingThere or ReleasePending was not permitted by the
/// protocol at the end of the bank's log.
pub fn every_refusal()
    ensures { EveryRefusalIsTheProtocols }
{}

/// An event that the protocol permits at the end of a bank's log (`MayAt`) leaves the number of copies of each client
/// but the one whose share its call takes: in the view whose log has that event more (`Extends`).
pub fn every_count()
    ensures { EveryEventLeavesOtherCounts }
{}

/// What an event sends that is permitted at the end of a bank's log (`MayAt`) waits under the next ticket of its
/// channel, in the view whose log has that event more (`Extends`). What the last event of a lawful log took (`Lawful`)
/// was the first message of its channel, which lost just that. A ticket that no case of a call refuses names the first
/// message, in every view.
pub fn every_ticket()
    ensures sends { EveryMessageSentWaits }
    ensures takes { EveryMessageTakenIsFirst }
    ensures names { EveryTicketNamesTheFirst }
{}

/// The answer to a Probe reports what the copy's permission and the cap say; a Grant gives the permission that its
/// Acquire's grow value ends with, or Tip where no other client has one.
pub fn every_permission()
    ensures answers { EveryAnswerIsItsReport }
    ensures grants { EveryGrantEndsItsGrow }
{}
