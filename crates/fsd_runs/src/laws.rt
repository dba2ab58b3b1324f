//! Laws over the definitions: the functions do nothing, the contract of each is a law.
ghost use Rattle.std.specs.Prelude.{◌≡◌, ◌⊎◌, ◌≤◌, ◌+◌, ℕ, List, [], ◌∷◌, ◌++◌, None, length, map, take, fold};
ghost use Rattle.std.specs.List.{last_or};
ghost use Rattle.volume_layout.specs.declared.layout.Layout.{Layout};
ghost use Rattle.volume_layout.specs.Layout.{IsFormOf};
ghost use Rattle.sector_disk.specs.declared.sector.WeakRun.{WeakRun};
ghost use Rattle.sector_disk.specs.Machine.{Moment, Report};
ghost use Rattle.fsd_sound.specs.Sound.{IsPrefixOf};
ghost use Rattle.fsd_texts.specs.Text.{memory_text};
ghost use Rattle.fsd_runs.specs.declared.request.Request.{Request};
ghost use Rattle.fsd_runs.specs.Leaves.{IsBrokenOff, IsReplied, IsSoundAsSaid, IsUndone, IsUnsaid, Left, NoneRose, SaysThen, StaysSound, Whatever};
ghost use Rattle.fsd_files.specs.Disk.{Image};
ghost use Rattle.fsd_files.specs.Files.{Change, step};
ghost use Rattle.fsd_files.specs.Desk.{Session};
ghost use Rattle.fsd_files.specs.Volume.{HasReach, Volume};
ghost use Rattle.fsd_texts.specs.declared.command.Command.{Command};
ghost use Rattle.fsd_texts.specs.declared.script_command.ScriptCommand.{ScriptCommand};
ghost use Rattle.fsd_texts.specs.declared.script_command.ScriptCommand.TheVariants.{Plain};
ghost use Rattle.fsd_texts.specs.Script.{Script};
ghost use Rattle.fsd_runs.specs.Errands.{Errand, Turn, scripted};
ghost use Rattle.fsd_runs.specs.Runs.{answered, session_behind, changes_in, forced_in, turn_of, volume_answered, volume_behind};
ghost use Rattle.fsd_runs.specs.Sessions.{HoldsRead, MayMeet, Meeting, answer_in, changes_in_session};

/// What commands do to the files is the changes that their replies accept, in order.
pub fn replies_tell_the_changes()
    ensures command { (x : Meeting) (s : Session) (c : ScriptCommand) → (answer_in x s c).1.volume.files ≡ fold step s.volume.files (changes_in_session s c (answer_in x s c).0) }
    ensures run { (e : Errand) (xs : List Meeting) (s : Session) (commands : List ScriptCommand) →
        (session_behind xs s commands).volume.files ≡ fold step s.volume.files (changes_in (map (turn_of e) (answered xs s commands))) }
{}

/// Commands of a volume alone go as it answers them one after another, whatever clients have open, and leave these.
pub fn a_volume_answers_alone()
    ensures answered { (xs : List Meeting) (s : Session) (commands : List Command) →
        answered xs s (map (λ c. Plain c) commands) ≡ volume_answered (map (λ x. x.met) xs) s.volume commands }
    ensures behind { (xs : List Meeting) (s : Session) (commands : List Command) →
        session_behind xs s (map (λ c. Plain c) commands) ≡ record s { volume = volume_behind (map (λ x. x.met) xs) s.volume commands } }
{}

/// What the lines of a script tell as forced is forced: of all changes, those before the last `forced` wait no more.
pub fn forced_lines_tell_what_is_forced()
    ensures { (script : Script) (xs : List Meeting) (s : Session) (commands : List ScriptCommand) → let turns = map (turn_of (scripted script)) (answered xs s commands) in
        forced_in turns + (session_behind xs s commands).volume.unforced ≤ length (changes_in turns) + s.volume.unforced }
{}

/// Each command has an answer, whatever the disk.
pub fn each_command_has_an_answer()
    ensures { (i : Image) (s : Session) (c : ScriptCommand) → HasReach s.volume → HoldsRead s → (x : Meeting) × MayMeet i i s c x }
{}

/// Whatever a stop leaves of a run over a sound disk is a sound disk again, in the windows that the machine has then,
/// with every change forced that was, by the layout or one beside it: so runs go on from each other.
pub fn stops_leave_sound_disks()
    ensures { (l layout : Layout) → IsFormOf l layout → (windows : List WeakRun) (run : WeakRun) (h : List Change) (f n : ℕ) (turns : List Turn) (old left : Moment) → IsPrefixOf h f n →
        last_or None windows ≡ old.windows.present → Left layout windows run h f n turns old left → StaysSound l h f left }
{}

/// Whichever of the moments since the last sync is on the disk behind a run that has said all, it is sound for all of its
/// changes, by each layout that a root of what is there says: so runs go on with one machine.
pub fn replied_runs_go_on()
    ensures { (l : Layout) (windows : List WeakRun) (run : WeakRun) (h : List Change) (n : ℕ) (turns : List Turn) (status : ℕ) (behind : Volume) (old new held : Moment) (result : ℕ) →
        IsReplied l windows run h n turns status behind (λ P. P held) old new result →
        IsSoundAsSaid l (windows ++ run ∷ []) (take n h ++ changes_in turns) (n + length (changes_in turns)) new.image held.image }
{}

/// Where no fault is counted, a run that does not say all says that memory was refused, and has changed nothing since
/// what it has said whole.
pub fn without_faults_memory_alone_is_refused()
    ensures { (request : Request) (l : Layout) (windows : List WeakRun) (g : List Change) (n : ℕ) (before after : Report) (turns : List Turn) (old new : Moment) (result : ℕ) → NoneRose before after →
        IsUnsaid before after result ⊎ IsBrokenOff request (IsUndone l windows g n turns) Whatever before after turns old new result → (result ≡ 7) × (x : SaysThen turns memory_text old new) × IsUndone l windows g n turns x.whole new.image }
{}
