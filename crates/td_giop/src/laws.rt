//! What holds of all streams and messages, as functions that do nothing: each one's contract is the
//! law.

ghost use Rattle.std.specs.Prelude.{◌≡◌, ◌↔◌, ◌≤◌, ◌<◌, ◌^◌, ◌+◌, ◌-◌, ℕ, Bool, List, [], ◌∷◌, ◌++◌, length, drop};
ghost use Rattle.std.specs.Prelude.{Option, Some, None, Result, Ok, Err};
ghost use Rattle.std.specs.List.{concat};
ghost use Rattle.td_cdr.specs.declared.order.Order.{Order};
ghost use Rattle.td_cdr.specs.declared.fault.CdrFault.TheVariants.{Memory};
ghost use Rattle.td_cdr.specs.Place.{At};
ghost use Rattle.td_cdr.specs.Text.{HasNoNul};
ghost use Rattle.td_cdr.specs.Spelling.{Joins};
ghost use Rattle.td_cdr.specs.Faults.{Refuses};
ghost use Rattle.td_giop.specs.declared.fault.FrameFault.{FrameFault};
ghost use Rattle.td_giop.specs.declared.header.Header.{Header};
ghost use Rattle.td_giop.specs.declared.raw.Raw.{Raw};
ghost use Rattle.td_giop.specs.declared.header.TheConstants.{HEADER_SIZE, NEWEST_MINOR};
ghost use Rattle.td_giop.specs.declared.message_type.TheConstants.{REQUEST, REPLY, LOCATE_REQUEST, LOCATE_REPLY};
ghost use Rattle.td_giop.specs.declared.message_type.TheConstants.{MESSAGE_ERROR};
ghost use Rattle.td_giop.specs.Header.{GoodHeader, IsFault, header_at};
ghost use Rattle.td_giop.specs.Stream.{Stream};
ghost use Rattle.td_giop.specs.FramerLends.{IsRaw};
ghost use Rattle.td_giop.specs.Cut.{StreamEnd, HasEnding, IsFirstMessage, Fronts, Cut, HasCut, SameCut, IsMessage};
ghost use Rattle.td_giop.specs.Heads.{behind_header, request, request_at, reply, reply_at, locate_request, locate_at};
ghost use Rattle.td_giop.specs.Heads.{locate_reply, locate_reply_at, cancel_request, cancel_at};
ghost use Rattle.td_giop.specs.Alone.{IsReadAlone};
ghost use Rattle.td_giop.specs.Written.{header_written, request_start, reply_start, locate_written};
ghost use Rattle.td_giop.specs.Written.{locate_reply_written, seal_size, at_body, IsSealed};

/// A header is answered exactly where it is good, with what it tells; none exactly where fewer than 12
/// octets are there; and a fault exactly where it is the first, in the order magic, version, flags,
/// type and size.
pub fn header_is_judged()
    ensures good { (limit : ℕ) (bytes : List ℕ) (h : Header)
        → (header_at limit bytes ≡ Ok (Some h))
        ↔ GoodHeader limit bytes h.minor h.order h.kind h.size }
    ensures cut { (limit : ℕ) (bytes : List ℕ) → (header_at limit bytes ≡ Ok None)
        ↔ (length bytes < HEADER_SIZE) }
    ensures refused { (limit : ℕ) (bytes : List ℕ) (f : FrameFault)
        → (header_at limit bytes ≡ Err f) ↔ IsFault f limit bytes }
{}

/// What stands whole in front of a stream is a message by itself, with a good header that tells its
/// size; and a message stands whole in front of whatever begins with it. What a framer lends is such a
/// message, of the order and type that its own header tells.
pub fn front_is_message()
    ensures front { (limit : ℕ) (s m : List ℕ) → IsFirstMessage limit s m → IsMessage limit m }
    ensures message { (limit : ℕ) (m rest : List ℕ) → IsMessage limit m
        → IsFirstMessage limit (m ++ rest) m }
    ensures raw { (s : Stream) (m : Raw) → IsRaw s m → IsFirstMessage s.limit s.rest m.bytes.now
        × GoodHeader s.limit m.bytes.now m.minor m.order m.kind (length m.bytes.now - HEADER_SIZE) }
{}

/// Every stream is messages and a rest, and the messages followed by the rest are the stream. No second
/// pair fits.
pub fn one_cut()
    ensures one { (limit : ℕ) (s : List ℕ) (ms ns : List (List ℕ)) (rest other : List ℕ)
        (e f : StreamEnd)
        → Cut limit s ms rest e → Cut limit s ns other f → SameCut ms ns rest other e f }
    ensures some_cut { (limit : ℕ) (s : List ℕ) → HasCut limit s }
    ensures joined { (limit : ℕ) (s : List ℕ) (ms : List (List ℕ)) (rest : List ℕ)
        → Fronts limit s ms rest → concat ms ++ rest ≡ s }
{}

/// Messages in front of a stream stay there when more of it comes, which goes into the rest. A message
/// in front of the rest is one more of them. Where the rest ends so, they are the stream's cut.
pub fn fronts_go_on()
    ensures none { (limit : ℕ) (s : List ℕ) → Fronts limit s [] s }
    ensures fed { (limit : ℕ) (s p : List ℕ) (ms : List (List ℕ)) (rest : List ℕ)
        → Fronts limit s ms rest → Fronts limit (s ++ p) ms (rest ++ p) }
    ensures more { (limit : ℕ) (s : List ℕ) (ms : List (List ℕ)) (rest m : List ℕ)
        → Fronts limit s ms rest
        → IsFirstMessage limit rest m → Fronts limit s (ms ++ m ∷ []) (drop (length m) rest) }
    ensures cut { (limit : ℕ) (s : List ℕ) (ms : List (List ℕ)) (rest : List ℕ) (e : StreamEnd)
        → Fronts limit s ms rest → HasEnding limit e rest → Cut limit s ms rest e }
{}

/// A head is read exactly where it is spelled, whatever follows, and refused exactly with the fault of
/// the first item that has no spelling.
pub fn heads_are_read()
    ensures request { (minor : ℕ) → Joins (request minor).format.spells (request_at minor) }
    ensures request_refused { (minor : ℕ) → Refuses (request minor).faults (request_at minor) }
    ensures reply { Joins reply.format.spells reply_at }
    ensures reply_refused { Refuses reply.faults reply_at }
    ensures locate { IsReadAlone locate_request locate_at }
    ensures locate_reply { IsReadAlone locate_reply locate_reply_at }
    ensures cancel { IsReadAlone cancel_request cancel_at }
{}

/// No reading of a head runs out of memory.
pub fn heads_take_no_memory()
    ensures request { (minor : ℕ) (a : At) → a.origin ≤ a.place → request_at minor a ≡ Err Memory
        → ⊥ }
    ensures reply { (a : At) → a.origin ≤ a.place → reply_at a ≡ Err Memory → ⊥ }
    ensures locate { (a : At) → a.origin ≤ a.place → locate_at a ≡ Err Memory → ⊥ }
    ensures locate_reply { (a : At) → a.origin ≤ a.place → locate_reply_at a ≡ Err Memory → ⊥ }
    ensures cancel { (a : At) → a.origin ≤ a.place → cancel_at a ≡ Err Memory → ⊥ }
{}

/// What was written and sealed is read back, and the reader then stands at the body.
pub fn written_is_read()
    ensures request { (order : Order) (minor id : ℕ) (answered : Bool) (key operation body : List ℕ)
        → id < 2 ^ 32 → length key < 2 ^ 32 → length operation + 1 < 2 ^ 32 → HasNoNul operation
        → request_at minor
        (behind_header order (seal_size order (request_start order minor id answered key operation
        ++ body))) ≡ Ok (
          record { id = id; answered = answered; key = key; operation = operation },
          at_body order (request_start order minor id answered key operation) body,
        ) }
    ensures reply { (order : Order) (minor id status : ℕ) (body : List ℕ) → id < 2 ^ 32
        → status < 2 ^ 32
        → reply_at (behind_header order (seal_size order (reply_start order minor id status
        ++ body)))
        ≡ Ok (
          record { id = id; status = status },
          at_body order (reply_start order minor id status)
              body,
        ) }
    ensures locate { (order : Order) (minor id : ℕ) (key : List ℕ) → id < 2 ^ 32
        → length key < 2 ^ 32
        → locate_at (behind_header order (seal_size order (locate_written order minor id key)))
        ≡ Ok (id, key) }
    ensures locate_reply { (order : Order) (minor id status : ℕ) → id < 2 ^ 32 → status < 2 ^ 32
        → locate_reply_at (behind_header order
        (seal_size order (locate_reply_written order minor id status)))
        ≡ Ok (id, status) }
{}

/// What was written and sealed is a whole good message of its type.
pub fn sealed_is_whole()
    ensures request { (order : Order) (minor id : ℕ) (answered : Bool) (key operation body : List ℕ)
        (limit : ℕ)
        → minor ≤ NEWEST_MINOR
        → IsSealed limit minor order REQUEST (request_start order minor id answered key operation
        ++ body) }
    ensures reply { (order : Order) (minor id status : ℕ) (body : List ℕ) (limit : ℕ)
        → minor ≤ NEWEST_MINOR → IsSealed limit minor order REPLY (reply_start order minor id status
        ++ body) }
    ensures locate { (order : Order) (minor id : ℕ) (key : List ℕ) (limit : ℕ)
        → minor ≤ NEWEST_MINOR → IsSealed limit minor order LOCATE_REQUEST
        (locate_written order minor id key) }
    ensures locate_reply { (order : Order) (minor id status : ℕ) (limit : ℕ)
        → minor ≤ NEWEST_MINOR → IsSealed limit minor order LOCATE_REPLY
        (locate_reply_written order minor id status) }
    ensures plain { (order : Order) (kind : ℕ) (limit : ℕ) → kind ≤ MESSAGE_ERROR
        → IsSealed limit 0 order kind (header_written order 0 kind) }
{}
