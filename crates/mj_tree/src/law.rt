//! What holds of every request.

ghost use Rattle.std.specs.Prelude.{◌≡◌, true, false};
ghost use Rattle.mj_tree.specs.State.{PlainState};
ghost use Rattle.mj_tree.specs.Answer.{changes, after};
ghost use Rattle.mj_tree.specs.declared.request.ClientRequest.{ClientRequest};

/// The state changes exactly where a request is not only answered.
pub fn changes_just_where_accepted()
    ensures same { (s : PlainState) (r : ClientRequest) → changes s r ≡ false → after s r ≡ s }
    ensures differs { (s : PlainState) (r : ClientRequest) → changes s r ≡ true → after s r ≡ s → ⊥ }
{}
