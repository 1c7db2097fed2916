//! How each event moves the messages between clients and home, and what holds of logs that take them in order.
ghost use Rattle.tl_protocol_lanes.specs.Delivery.{EveryMessageIsDeliveredInOrder};
ghost use Rattle.tl_protocol_lanes.specs.Lawful.{EmptyIsLawful, EveryLawfulLogInterleaves, FirstHeadsItsList, FirstIsWhole, LanesGrowByOne, LawfulGrowsByOne, MessagesFitTheirChannels};
ghost use Rattle.tl_protocol_lanes.specs.Lists.{EveryEventIsOfOneClient, EveryEventMovesItsLists, EveryFirstIsFirst, EverySuchEventLeavesHome};

/// Each permitted event takes the front of one list of its client and sends to the end of one, and leaves the other
/// clients; where it is not home's or the memory's, it leaves these too.
pub fn every_event()
    ensures lists { EveryEventMovesItsLists }
    ensures others { EveryEventIsOfOneClient }
    ensures home { EverySuchEventLeavesHome }
{}

/// In a log that takes the first message of a channel each time, the list of each block is the channel's with the other
/// blocks' messages taken out.
pub fn every_lawful_log()
    ensures empty { EmptyIsLawful }
    ensures grows { LawfulGrowsByOne }
    ensures interleaves { EveryLawfulLogInterleaves }
    ensures lanes { LanesGrowByOne }
    ensures first { FirstHeadsItsList }
    ensures kinds { MessagesFitTheirChannels }
    ensures begins { EveryFirstIsFirst }
    ensures whole { FirstIsWhole }
{}

/// Each message on a channel is taken once, and in the order of sending.
pub fn every_message()
    ensures { EveryMessageIsDeliveredInOrder }
{}
