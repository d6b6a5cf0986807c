//! What holds of each run of the machine.

ghost use Rattle.std.specs.Prelude.{◌≡◌, List, ◌++◌};
ghost use Rattle.mj_machine.specs.declared.kept.Kept.{Kept};
ghost use Rattle.mj_machine.specs.Legal.{Turn, after_turns};
ghost use Rattle.mj_machine.specs.Machine.{LogMachine, Step, run};

/// No step takes a safe request away.
pub fn safe_requests_stay()
    ensures { (w : LogMachine) (steps : List Step) → (more : List Kept) × ((run w steps).history ≡ w.history ++ more) }
{}

/// What was safe after some turns of a script is safe after all that follow.
pub fn turns_keep_what_is_safe()
    ensures { (w : LogMachine) (turns later : List Turn) → (more : List Kept) × ((after_turns w (turns ++ later)).history ≡ (after_turns w turns).history ++ more) }
{}
