//! What ties the register's rule to the protocol.
ghost use Rattle.tl_registers.specs.Acts.{EveryRegisterActs};
ghost use Rattle.tl_registers.specs.Agree.{AgreeAtReset, EveryActionIsOfItsRegister, EveryRunIsSteady, EventsLeaveRegisters, ProbingKeepsAgreement, FetchingKeepsAgreement, GrantingKeepsAgreement, PuttingKeepsAgreement, DroppingKeepsAgreement, EndingKeepsAgreement, AcceptingKeepsAgreement, EvictingKeepsAgreement, ClosingKeepsAgreement};
ghost use Rattle.tl_registers.specs.Fit.{EveryActionIsPermitted};
ghost use Rattle.tl_registers.specs.Pending.{PendingIsTheProtocols};

/// Whether a Probe or a Grant is pending is answered here as the protocol defines it.
pub fn pending_is_the_protocols()
    ensures { PendingIsTheProtocols }
{}

/// What a register does next is permitted by the protocol, wherever each block is as every run keeps it and the
/// register fits the state, and it is of the block that the register works on.
pub fn every_action_is_permitted()
    ensures permitted { EveryActionIsPermitted }
    ensures own { EveryActionIsOfItsRegister }
{}

/// No open register waits for nothing: where it fits the state, and no Probe, no Grant and nothing to the memory is
/// under way of its own block and of its victim, it has a next action.
pub fn every_register_acts()
    ensures { EveryRegisterActs }
{}

/// The open registers and the protocol's state agree: at reset, and after each event, with the change of the registers
/// that goes along with it.
pub fn registers_agree()
    ensures at_reset { AgreeAtReset }
    ensures steady { EveryRunIsSteady }
    ensures events { EventsLeaveRegisters }
    ensures probe { ProbingKeepsAgreement }
    ensures get { FetchingKeepsAgreement }
    ensures grant { GrantingKeepsAgreement }
    ensures put { PuttingKeepsAgreement }
    ensures drop { DroppingKeepsAgreement }
    ensures put_ack { EndingKeepsAgreement }
    ensures accept { AcceptingKeepsAgreement }
    ensures evict { EvictingKeepsAgreement }
    ensures close { ClosingKeepsAgreement }
{}
