//! What holds of whole runs of histories and requesters.

ghost use Rattle.std.specs.Prelude.{◌≡◌, ℕ, ◌≤◌, List, true};
ghost use Rattle.rtp_media_nack.specs.Histories.{Sent, newest_fitting};
ghost use Rattle.rtp_media_nack.specs.Requests.{Requests, due, request_in};
ghost use Rattle.rtp_media_nack.specs.Runs.{Call, IsRising, after_calls, after_keeping, in_order, is_among, told_of};

/// After datagrams of rising numbers were kept one after the other, a history holds exactly the newest that fit its
/// bounds, of all of them (`newest`). A requester asks only for what is missing (`missing`), and what it knows of a
/// number is what the calls say in which it was missing without a break (`told`): it is asked for at most so many times
/// (`at_most`).
pub fn nack_laws()
    ensures newest { (most most_bytes : ℕ) (sent : List Sent) → IsRising sent
        → (after_keeping most most_bytes sent).packets ≡ newest_fitting most most_bytes (in_order sent) }
    ensures missing { (q : Requests) (now round_trip n : ℕ) (missing : List ℕ) →
        is_among n (due q now round_trip missing) ≡ true → is_among n missing ≡ true }
    ensures told { (most delay n now : ℕ) (calls : List Call) →
        request_in (after_calls most delay calls).entries now n ≡ told_of most delay n now calls }
    ensures at_most { (most delay n now : ℕ) (calls : List Call) → (told_of most delay n now calls).times ≤ most }
{}
