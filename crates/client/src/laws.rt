//! What holds of every client. Here are only laws.
ghost use Rattle.client.specs.Following.{KnowsWhatWasSo};

/// What the mirror of a client holds was so when the last message was queued that it took.
pub fn what_a_client_knows_was_so()
    ensures { KnowsWhatWasSo }
{}
