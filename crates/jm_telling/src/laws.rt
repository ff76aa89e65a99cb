//! What holds of the histories of all accepted commands, of the first faults of all files, of the jobs of all commands,
//! and of the tokens of all specifications.
ghost use Rattle.std.specs.Prelude.{◌≡◌, ◌⊎◌, ◌++◌, ◌∷◌, [], ℕ, List, Option, Some, codes, length, map};
ghost use Rattle.std.specs.List.{AllZip};
ghost use Rattle.jm_model.specs.declared.fault.ScriptFault.{ScriptFault};
ghost use Rattle.jm_model.specs.declared.fault.SpecFault.{SpecFault};
ghost use Rattle.jm_model.specs.declared.step.Entry.{Entry};
ghost use Rattle.jm_script.specs.declared.script.ScriptLine.{ScriptLine};
ghost use Rattle.jm_sync.specs.declared.line.SyncLine.{SyncLine};
ghost use Rattle.jm_cli.specs.Words.{CommandWords, command_of};
ghost use Rattle.jm_cli.specs.Words.CommandWords.{Run, Audit};
ghost use Rattle.jm_print.specs.Texts.{history_text};
ghost use Rattle.jm_print.specs.Told.{AreNames, HaveNames, AreTold as AreEntriesTold, AreToldBy, texts_of};
ghost use Rattle.jm_sweep.specs.Recordings.{parts_of};
ghost use Rattle.jm_inputs.specs.Specifications.{Specification, IsSpecification, IsSpecFault, meaning_of};
ghost use Rattle.jm_inputs.specs.Scripts.{IsScriptFault};
ghost use Rattle.jm_inputs.specs.Recordings.{RecordedPart, IsRecording};
ghost use Rattle.jm_top.specs.Histories.{AreHistoriesFrom, lexicon};
ghost use Rattle.jm_inputs.specs.declared.status.Status.{Status};
ghost use Rattle.jm_inputs.specs.Jobs.{Job, Refused, Accepted, AcceptedAudit, IsJob, IsCaused, AreTold};
ghost use Rattle.jm_top.specs.Texts.{IsTextOf};
ghost use Rattle.jm_top.specs.Endings.{Writes};
ghost use Rattle.jm_telling.specs.FirstFaults.{IsSameFault, IsSameStatus, IsSameJob, IsInterrupted};
ghost use Rattle.jm_telling.specs.Parts.{IsPartAlone};
ghost use Rattle.jm_telling.specs.Tellable.{IsTellable};
ghost use Rattle.jm_telling.specs.TokenLaws.{TokensTile, WordsAreMaximal, MarksAreLongest, TextsAreQuoted};
ghost use Rattle.jm_telling.specs.TokenLaws.{OpenIsUnclosed};

/// The names of an accepted command are fit to be printed: in each of its specifications the parameters, the events and
/// the handlers each have names of their own, and so have the objects; and none of these holds a line feed, a space,
/// `,` or `=`.
pub fn inputs_have_names()
    ensures { (words : List (List ℕ)) (contents : List ℕ → Option (List ℕ)) (command : CommandWords)
        → (specs : List Specification) (scripts : List (List ScriptLine)) (objects : List (List ℕ))
        → (asked : List (List SyncLine))
        → IsJob words contents (Accepted command specs scripts objects asked)
        → HaveNames (map (lexicon objects) specs) }
{}

/// The text of an accepted command tells its histories. Each list of histories that its scripts may have, one for each
/// specification, is told by its text; and two such lists with one text are one list.
pub fn text_tells_histories()
    ensures told { (words : List (List ℕ)) (contents : List ℕ → Option (List ℕ)) (command : CommandWords)
        → (specs : List Specification) (scripts : List (List ScriptLine)) (objects : List (List ℕ))
        → (asked : List (List SyncLine)) (hs : List (List Entry))
        → IsJob words contents (Accepted command specs scripts objects asked)
        → AreHistoriesFrom 0 specs scripts hs
        → AreToldBy (map (lexicon objects) specs) hs }
    ensures one { (words : List (List ℕ)) (contents : List ℕ → Option (List ℕ)) (command : CommandWords)
        → (specs : List Specification) (scripts : List (List ScriptLine)) (objects : List (List ℕ))
        → (asked : List (List SyncLine)) (hs others : List (List Entry))
        → IsJob words contents (Accepted command specs scripts objects asked)
        → AreHistoriesFrom 0 specs scripts hs
        → AreHistoriesFrom 0 specs scripts others
        → texts_of (map (lexicon objects) specs) hs ≡ texts_of (map (lexicon objects) specs) others
        → hs ≡ others }
{}

/// A legal history of a specification is told by its text, by itself: whatever scripts it is of, if no event was out of
/// memory, its objects are among those that have names, and the numbers of its callers and lines are below 2^64. Two
/// such histories with one text are one.
pub fn legal_histories_are_told()
    ensures told { (bytes : List ℕ) (s : Specification) (objects : List (List ℕ)) (h : List Entry)
        → IsSpecification bytes s → IsTellable (meaning_of s) (length objects) h
        → AreEntriesTold (lexicon objects s) h }
    ensures one { (bytes : List ℕ) (s : Specification) (objects : List (List ℕ)) (h other : List Entry)
        → IsSpecification bytes s → AreNames objects
        → IsTellable (meaning_of s) (length objects) h
        → IsTellable (meaning_of s) (length objects) other
        → history_text (lexicon objects s) h ≡ history_text (lexicon objects s) other
        → h ≡ other }
{}

/// What `run` wrote is answered `yes`: where the words of an audit name the specifications and the scripts of a run,
/// and a history that holds a text of the run, each text of the audit is `yes`, unless it is refused.
pub fn what_run_wrote_is_answered_yes()
    ensures { (words others : List (List ℕ)) (contents : List ℕ → Option (List ℕ))
        → (history : List ℕ) (names files : List (List ℕ))
        → (specs again : List Specification) (scripts reread : List (List ScriptLine))
        → (objects renamed : List (List ℕ)) (asked : List (List SyncLine)) (text bytes said : List ℕ)
        → IsJob words contents (Accepted (Run names files) specs scripts objects asked)
        → IsTextOf (Accepted (Run names files) specs scripts objects asked) text
        → AreTold others contents
        → command_of others ≡ Some (Audit history names files)
        → contents history ≡ Some text
        → IsJob others contents (AcceptedAudit again reread renamed bytes)
        → IsTextOf (AcceptedAudit again reread renamed bytes) said
        → said ≡ codes "yes" ++ 10 ∷ [] }
{}

/// Each part of an accepted recording is a script by itself, with the same steps and objects as after the parts before
/// it. So its text in `sweep` is the printed history of a replay of it by itself.
pub fn parts_are_scripts()
    ensures { (specs : List Specification) (bytes : List ℕ) (parts : List RecordedPart)
        → IsRecording specs bytes parts → AllZip (IsPartAlone specs) (parts_of bytes) parts }
{}

/// The first fault of a script is one, over the same specifications and after the same scripts.
pub fn one_script_fault()
    ensures { (specs : List Specification) (count : ℕ) (names : List (List ℕ)) (bytes : List ℕ)
        (fault other : ScriptFault)
        → IsScriptFault specs count names bytes fault → IsScriptFault specs count names bytes other → fault ≡ other }
{}

/// The first fault of a specification is one, but for the line of `Syntax`: where bytes have two, they are equal, or
/// both are `Syntax`.
pub fn one_spec_fault()
    ensures { (bytes : List ℕ) (fault other : SpecFault)
        → IsSpecFault bytes fault → IsSpecFault bytes other → IsSameFault fault other }
{}

/// A command has one job, where it is told what its files hold, but for the line of `Syntax`: either it is refused with
/// one status, or it is accepted, over the same specifications and scripts, parts or history.
pub fn one_job()
    ensures { (words : List (List ℕ)) (contents : List ℕ → Option (List ℕ)) (job other : Job)
        → AreTold words contents
        → IsJob words contents job → IsJob words contents other → IsSameJob job other }
{}

/// A command whose job is refused ends with that refusal, where it is told what its files hold, but for the line of
/// `Syntax`, or as a file couldn't be read or memory was short. So says what `jmop` ensures of its status and its sink:
/// it is never `Done` or `WriteFailed`, nor a refusal of something else.
pub fn one_refusal()
    ensures { (words : List (List ℕ)) (contents : List ℕ → Option (List ℕ)) (status other : Status)
        → (before after : Option (List ℕ))
        → AreTold words contents
        → IsJob words contents (Refused status)
        → Writes words contents other before after → IsCaused words contents other
        → IsSameStatus status other ⊎ IsInterrupted other }
{}

/// The tokens of a specification and what is dropped between them tile its bytes: in order, without overlap, and from
/// the first byte to the last. What is dropped is white space, comments up to the end of their line, and comments up to
/// the first `*/`.
pub fn tokens_tile()
    ensures { TokensTile }
{}

/// A word is made of bytes of words, and neither the byte before it nor the one after it continues it.
pub fn words_are_maximal()
    ensures { WordsAreMaximal }
{}

/// A mark is one of several characters or a single byte, and no mark of several characters that stands in its place is
/// longer.
pub fn marks_are_longest()
    ensures { MarksAreLongest }
{}

/// A text begins with a quote and ends with the first same quote that no backslash takes along; no line feed stands in
/// it. A backslash takes the byte after it along, unless one before it takes it along.
pub fn texts_are_quoted()
    ensures { TextsAreQuoted }
{}

/// Where the bytes of a specification can't be cut into tokens, a text isn't closed on its line, or a comment isn't
/// closed at all. It begins where the tokens before it, with what is dropped, end; and the line that is named is the
/// one on which it begins.
pub fn open_is_unclosed()
    ensures { OpenIsUnclosed }
{}
