//! Laws of readers.
ghost use Rattle.std.specs.Prelude.{◌≡◌, ◌++◌, ◌∷◌, [], List, ℕ, None, Ok};
ghost use Rattle.fsd_texts.specs.declared.script_command.ScriptCommand.{ScriptCommand};
ghost use Rattle.fsd_texts.specs.declared.end.End.TheVariants.{Done};
ghost use Rattle.fsd_texts.specs.Script.{Script, command_at, script_in};
ghost use Rattle.script_text.specs.Reading.{WantsMore, Reading, fresh, script_left};

/// A reader that has taken nothing has the whole script before it; the commands given so far are the first ones of it,
/// with what is to come behind them; where nothing is to come and all is well, the input is read to its end; and where
/// the input fails, what was taken gives no other command. A command that bytes begin with is the same whatever stands
/// behind them; so bytes begin with none exactly where no first bytes of them are one.
pub fn scripts_are_read_whole()
    ensures first { (input : List ℕ) → script_left fresh input ≡ script_in input }
    ensures next { (whole left now : Script) (given : List ScriptCommand) (command : ScriptCommand) → whole ≡ (given ++ left.0, left.1) → left ≡ (command ∷ now.0, now.1) → whole ≡ ((given ++ command ∷ []) ++ now.0, now.1) }
    ensures end { (r : Reading) (input : List ℕ) → r.end ≡ None → script_left r input ≡ ([], Done) → (r.waiting ≡ []) × (input ≡ []) }
    ensures cut { (r : Reading) → r.end ≡ None → WantsMore r.waiting → (script_left r []).0 ≡ [] }
    ensures stays { (front rest left : List ℕ) (command : ScriptCommand) → command_at front ≡ Ok (command, left) → command_at (front ++ rest) ≡ Ok (command, left ++ rest) }
{}
