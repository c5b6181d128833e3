//! Laws of the client's program.

ghost use Rattle.std.specs.Prelude.{◌≡◌, ℕ, List, IsSome, Some, Ok};
ghost use Rattle.td_cli_request.specs.declared.making.Asking.{Asking};
ghost use Rattle.td_cli_program.specs.Outcomes.{outcome_lines};
ghost use Rattle.td_cli_program.specs.Sending.{Line, SendsAsked};
ghost use Rattle.td_cli_program.specs.Words.{asking_in};
ghost use Rattle.td_cli_program.specs.declared.outcome.Outcome.{Outcome};
ghost use Rattle.td_wire.specs.Connections.{Traffic};

/// Over a wire that tells, what the words ask for is never answered with a result that has no lines: so the status 8
/// means that what came is no reply to the request.
pub fn answers_have_lines()
    ensures { (words : List (List ℕ)) (asking : Asking) (t : Traffic) (v w : Line) (o : Outcome)
        → asking_in words ≡ Some asking → v.content ≡ Some t → SendsAsked asking v w (Ok o)
        → IsSome (outcome_lines o) }
{}
