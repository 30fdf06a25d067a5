//! What a join of the texts that runs over spans wrote is.
ghost use Rattle.std.specs.Prelude.{ℕ, ◌≡◌, Bool, List, [], flat_map, if◌then◌else◌};
ghost use Rattle.xc_input.specs.Named.{Named, IsSound};
ghost use Rattle.xc_list.specs.Output.{output};
ghost use Rattle.xc_list.specs.Runs.{end_of};
ghost use Rattle.xc_list.specs.SearchedSpans.{SearchedSpan};
ghost use Rattle.xc_list.specs.SpanTexts.{most_counted};
ghost use Rattle.xc_tools.specs.Joins.{end_of_texts, joined, spans_in, DoMeet};
ghost use Rattle.xc_tools.specs.SpanRuns.{AreTexts, AreWritten};
ghost use Rattle.xc_tools.specs.SpanShapes.{AreShapes, SpanText};

pub use xc_streams::laws::answers;

/// Texts that runs over spans of one problem wrote, each from where the one before it stopped, are the texts of spans
/// that meet.
pub fn written_texts_meet()
    ensures { (a : Named) (listed : Bool) (texts : List (List ℕ)) → AreWritten a listed [] texts →
        (spans : List SearchedSpan) × AreTexts a listed spans (flat_map (λ t. t) texts) × DoMeet [] spans }
{}

/// So a join of them, whatever texts it takes them for, writes the whole listing of the problem, if it is listed, and
/// tells the number of its members.
pub fn joined_texts_are_the_listing()
    ensures { (a : Named) (listed : Bool) (written : List (List ℕ)) (texts : List SpanText) → IsSound a →
        AreWritten a listed [] written → AreShapes listed texts (flat_map (λ t. t) written) →
        (joined texts ≡ (if listed then output a 1 most_counted else []))
        × (end_of_texts texts ≡ end_of a most_counted) }
{}

/// What is a text of a span of a sound problem has the shape of such texts, with this span.
pub fn texts_have_shapes()
    ensures { (a : Named) (listed : Bool) (spans : List SearchedSpan) (bytes : List ℕ) → IsSound a →
        AreTexts a listed spans bytes →
        (texts : List SpanText) × AreShapes listed texts bytes × (spans_in texts ≡ spans) }
{}
