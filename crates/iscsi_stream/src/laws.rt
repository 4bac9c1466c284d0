//! Laws of streams, canonical streams and framers: functions that do nothing, whose contracts are
//! the theorems. They speak of the definitions in `specs`, which the contracts of the working
//! functions cite too.

ghost use Rattle.std.specs.Prelude.{◌≡◌, ◌≤◌, ◌<◌, ◌+◌, ◌++◌, ◌∷◌, [], ◌↔◌, ℕ, List, length, take, drop, min, false, Some, Result, Err, IfOk, IfErr};
ghost use Rattle.iscsi_pdu.specs.declared.head.Head.{Head};
ghost use Rattle.iscsi_pdu.specs.declared.head.HeadFault.{HeadFault};
ghost use Rattle.iscsi_pdu.specs.Meaning.{IsHeader, Means, head_fault, AreBytes};
ghost use Rattle.iscsi_stream.specs.declared.fault.StreamFault.{StreamFault};
ghost use Rattle.iscsi_stream.specs.declared.fault.StreamFault.TheVariants as faults;
ghost use Rattle.iscsi_stream.specs.Segment.{no_login, continues};
ghost use Rattle.iscsi_stream.specs.Stream.{StreamMeans, ReadsAs, Message, logins_after_all, longest_segment, SplitsStream};
ghost use Rattle.iscsi_stream.specs.Canonical.{canon};
ghost use Rattle.iscsi_stream.specs.Framing.{Framing, opening_framing, IsBegun, HasTaken, FramerTakes, FramerFeedFails, FinishFails, pdu_given_up, message_of, is_ready, last_place};
ghost use Rattle.iscsi_stream.specs.Runs.{Call, FramerRuns, call_bytes, messages_of};

/// A stream has one meaning.
pub fn one_meaning()
    ensures { (stream : List ℕ) (ms ns : List Message) → StreamMeans stream ms
        → StreamMeans stream ns → ms ≡ ns }
{}

/// The canonical stream of a stream's meaning has that meaning, so it is in the profile.
pub fn canonical_meaning()
    ensures { (stream : List ℕ) (ms : List Message) → AreBytes stream → StreamMeans stream ms
        → StreamMeans (canon ms) ms }
{}

/// The canonical stream of a stream of bytes is of bytes, so that these laws hold of it too.
pub fn canonical_is_bytes()
    ensures { (stream : List ℕ) (ms : List Message) → AreBytes stream → StreamMeans stream ms
        → AreBytes (canon ms) }
{}

/// The canonical stream is not longer than the stream.
pub fn not_longer()
    ensures { (stream : List ℕ) (ms : List Message) → AreBytes stream → StreamMeans stream ms
        → length (canon ms) ≤ length stream }
{}

/// Two streams mean the same exactly if their canonical streams are equal.
pub fn same_meaning()
    ensures { (s t : List ℕ) (ms ns : List Message) → AreBytes s → AreBytes t → StreamMeans s ms
        → StreamMeans t ns → (ms ≡ ns) ↔ (canon ms ≡ canon ns) }
{}

/// Normalising twice is once.
pub fn twice_is_once()
    ensures { (stream : List ℕ) (ms ns : List Message) → AreBytes stream → StreamMeans stream ms
        → StreamMeans (canon ms) ns → canon ns ≡ canon ms }
{}

/// A stream splits into PDUs within a limit and a rest in one way.
pub fn one_split()
    ensures { (limit : ℕ) (stream : List ℕ) (ms ns : List Message) (a b x y : List ℕ)
        → SplitsStream limit stream ms a b → SplitsStream limit stream ns x y → (ms ≡ ns)
        × (a ≡ x) }
{}

/// What a stream splits off is its longest prefix of PDUs within the limit.
pub fn longest_prefix()
    ensures { (limit : ℕ) (stream given rest p q : List ℕ) (ms ns : List Message)
        → SplitsStream limit stream ms given rest → stream ≡ p ++ q → ReadsAs limit no_login p ns
        → length p ≤ length given }
{}

/// A stream of the profile leaves no rest, so no fault comes in it.
pub fn no_rest()
    ensures { (stream given rest : List ℕ) (ms ns : List Message) → StreamMeans stream ns
        → SplitsStream longest_segment stream ms given rest → rest ≡ [] }
{}

/// Cuts make no difference: a framer that took some bytes goes on to take the next, whatever pieces
/// they come in.
pub fn any_pieces()
    ensures { (stream piece : List ℕ) (ms : List Message) (n : ℕ) (old new : Framing)
        → HasTaken stream ms old → FramerTakes old piece n new
        → HasTaken (stream ++ take n piece) ms new }
{}

/// The PDU that is ready stands in the stream at the framer's place, behind the PDUs that were
/// given up. Its header and its segment are the bytes there, and it continues another PDU if those
/// that were given up say so.
pub fn ready_pdu()
    ensures { (stream segment : List ℕ) (ms : List Message) (head : Head) (v : Framing)
        → HasTaken stream ms v → Means v.held head segment
        → (place : ℕ) × (v.place ≡ min place last_place)
        × ReadsAs v.limit no_login (take place stream) ms
        × IsHeader (take 48 (drop place stream)) head (length segment)
        × (segment ≡ take (length segment) (drop (place + 48) stream))
        × (continues v.logins head ≡ continues (logins_after_all no_login ms) head) }
{}

/// A PDU that a framer gives up is the stream's next.
pub fn next_given()
    ensures { (stream segment : List ℕ) (ms : List Message) (head : Head) (old : Framing)
        → HasTaken stream ms old → Means old.held head segment
        → HasTaken stream (ms ++ message_of old head segment ∷ []) (pdu_given_up old head) }
{}

/// If no PDU is ready, the PDUs that a framer gave up are those of the longest prefix of what it
/// took. The framer's place is then the length of that prefix. The rest begins with no header that
/// is refused or says a segment over the limit: that would have been a fault.
pub fn given_so_far()
    ensures { (stream : List ℕ) (ms : List Message) (v : Framing) → HasTaken stream ms v
        → is_ready v ≡ false → (given : List ℕ) × (rest : List ℕ)
        × SplitsStream v.limit stream ms given rest × IsBegun v.limit rest
        × (v.place ≡ min (length given) last_place) }
{}

/// A new framer gives up the PDUs of the longest prefix of the bytes that it took, but for the PDU
/// that is ready. This holds whichever pieces the bytes come in, and however they are fed and
/// taken. If no fault came, the rest begins with no header that is refused or says a segment over
/// the limit.
pub fn every_run()
    ensures { (limit : ℕ) (calls : List Call) (v : Framing)
        → FramerRuns (opening_framing limit) calls v
        → is_ready v ≡ false
        → (given : List ℕ) × (rest : List ℕ)
        × SplitsStream limit (call_bytes calls) (messages_of no_login calls) given rest
        × IsBegun limit rest × (v.place ≡ min (length given) last_place) }
{}

/// A fault of a header comes where the rest begins with such a header, and names the place of the
/// rest.
pub fn header_fault()
    ensures { (stream piece : List ℕ) (ms : List Message) (fault : HeadFault) (place : ℕ)
        (v : Framing) → HasTaken stream ms v → FramerFeedFails v piece (faults.Head fault place)
        → (given : List ℕ) × (rest : List ℕ) × SplitsStream v.limit (stream ++ piece) ms given rest
        × (48 ≤ length rest) × (head_fault (take 48 rest) ≡ Some fault)
        × (place ≡ min (length given) last_place) }
{}

/// The other way: if the rest begins with a header that is refused, `feed` of the piece answers
/// that fault and nothing else. The rest is that of what a framer took and of the piece behind it.
pub fn header_refused()
    ensures { (stream piece given rest : List ℕ) (ms : List Message) (fault : HeadFault)
        (v new : Framing) (result : Result ℕ StreamFault) → HasTaken stream ms v
        → SplitsStream v.limit (stream ++ piece) ms given rest → 48 ≤ length rest
        → head_fault (take 48 rest) ≡ Some fault → IfOk result (λ n. FramerTakes v piece n new)
        → IfErr result (FramerFeedFails v piece) → result ≡ Err (faults.Head fault v.place) }
{}

/// A segment is refused where the rest begins with a header that says one over the limit, and the
/// fault names the place of the rest.
pub fn limit_fault()
    ensures { (stream piece : List ℕ) (ms : List Message) (place : ℕ) (v : Framing)
        → HasTaken stream ms v → FramerFeedFails v piece (faults.OverLimit place)
        → (given : List ℕ) × (rest : List ℕ) × SplitsStream v.limit (stream ++ piece) ms given rest
        × (48 ≤ length rest)
        × ((head : Head) × (len : ℕ) × IsHeader (take 48 rest) head len × (v.limit < len))
        × (place ≡ min (length given) last_place) }
{}

/// The other way: where the rest begins with such a header, `feed` of the piece answers that fault
/// and nothing else.
pub fn limit_refused()
    ensures { (stream piece given rest : List ℕ) (ms : List Message) (head : Head) (len : ℕ)
        (v new : Framing) (result : Result ℕ StreamFault) → HasTaken stream ms v
        → SplitsStream v.limit (stream ++ piece) ms given rest → 48 ≤ length rest
        → IsHeader (take 48 rest) head len → v.limit < len
        → IfOk result (λ n. FramerTakes v piece n new)
        → IfErr result (FramerFeedFails v piece) → result ≡ Err (faults.OverLimit v.place) }
{}

/// Where no fault came before, the end of the stream is one exactly where the rest is begun and no
/// PDU: `finish` then names the place of the rest.
pub fn end_fault()
    ensures { (stream : List ℕ) (ms : List Message) (place : ℕ) (v : Framing)
        → HasTaken stream ms v → FinishFails v (faults.Truncated place)
        ↔ ((given : List ℕ) × (rest : List ℕ) × SplitsStream v.limit stream ms given rest
        × (0 < length rest) × (place ≡ min (length given) last_place)) }
{}
