//! What holds of what is written, whatever the code does.
ghost use Rattle.mcap_filter.specs.Laws.{MessagesAreThosePicked, AllMessagesAreKept};

/// The messages that are written are those that are picked, in their order.
pub fn messages_are_those_picked()
    ensures { MessagesAreThosePicked }
{}

/// Where all messages are asked for, all are written.
pub fn all_messages_are_kept()
    ensures { AllMessagesAreKept }
{}
