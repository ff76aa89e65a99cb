//! What holds of the texts of all histories.
ghost use Rattle.std.specs.Prelude.{◌≡◌, ◌++◌, ℕ, List};
ghost use Rattle.jm_model.specs.declared.step.Entry.{Entry};
ghost use Rattle.jm_print.specs.Lexicons.{Lexicon};
ghost use Rattle.jm_print.specs.Texts.{bare_text, history_text};
ghost use Rattle.jm_print.specs.Told.{IsName, HasNames, HaveNames, AreTold, AreToldBy, texts_of};
ghost use Rattle.jm_print.specs.Unmarked.{unmarked};

/// The text determines the history: with one lexicon of names, two histories have two texts, and neither text is the
/// front of the other's.
pub fn text_determines_history()
    ensures whole { (l : Lexicon) (h other : List Entry) → HasNames l → AreTold l h → AreTold l other
        → history_text l h ≡ history_text l other → h ≡ other }
    ensures front { (l : Lexicon) (h other : List Entry) (s t : List ℕ) → HasNames l → AreTold l h → AreTold l other
        → history_text l h ++ s ≡ history_text l other ++ t → (h ≡ other) × (s ≡ t) }
{}

/// The lines that begin with two spaces and `>`, which are all that handlers print, can be dropped without loss: what
/// stays are the lines of the history without them, and two histories have two texts also then.
pub fn marked_lines_can_be_dropped()
    ensures dropped { (l : Lexicon) (h : List Entry) → HasNames l → AreTold l h
        → IsName l.specification
        → unmarked (history_text l h) ≡ bare_text l h }
    ensures kept { (l : Lexicon) (h other : List Entry) → HasNames l → AreTold l h → AreTold l other
        → unmarked (history_text l h) ≡ unmarked (history_text l other) → h ≡ other }
{}

/// The texts of several specifications, one after another, split in one way.
pub fn texts_split_in_one_way()
    ensures { (ls : List Lexicon) (hs others : List (List Entry)) → HaveNames ls → AreToldBy ls hs → AreToldBy ls others
        → texts_of ls hs ≡ texts_of ls others → hs ≡ others }
{}
