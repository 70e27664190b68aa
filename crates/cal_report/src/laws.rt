//! The law `headline`, which says what a report contains, and the law `cut_output_resumes`, which says how to continue
//! a report that was cut off. Each law is the contract of a function that does nothing when it is called.

ghost use Rattle.std.specs.Prelude.{◌≡◌, ◌+◌, ◌++◌, ◌∷◌, [], ℕ, ℤ, pos, ◌<ℤ◌, ◌-ℤ◌, ◌<◌, Bool, List, Ok, None, Option, Some, Result, map, suc, take, drop, length, slice_get, true};
ghost use Rattle.std.specs.Io.KnownBytes.{Appends};
ghost use Rattle.std.specs.List.{AllByRecursion};
ghost use Rattle.jiff.specs.Types.{Fold, Offset, TimeZone};
ghost use Rattle.jiff.specs.Words.{ambiguous_at};
ghost use Rattle.cal_bytes.specs.declared.whole.WholeFault.{WholeFault};
ghost use Rattle.cal_zone.specs.rules.Instant.{IsInstant};
ghost use Rattle.cal_zone.specs.rules.Place.{datetime_of, place_of};
ghost use Rattle.cal_zone.specs.rules.Zone.{local_shown_at};
ghost use Rattle.cal_spec.specs.rules.Fields.{Fields};
ghost use Rattle.cal_spec.specs.rules.Match.{matches};
ghost use Rattle.cal_spec.specs.rules.Members.{sets_of};
ghost use Rattle.cal_elapse.specs.rules.Elapses.{AreElapses, IsPlace, Timed, timed};
ghost use Rattle.cal_plan.specs.rules.Instants.{AreInstants};
ghost use Rattle.cal_report.specs.rules.Headline.{AreAccepted, AreAllAccepted, AreAnswered, AreElapsesOf, AreReportsOf, Expression, IsAccepted, IsAcceptedFile, IsFileOf, IsFine, IsReportOf, Schedule, alone, started_at};
ghost use Rattle.cal_report.specs.rules.RunReport.{ByReading, IsReported, report};
ghost use Rattle.cal_report.specs.rules.BaseTime.{IsBase};
ghost use Rattle.cal_report.specs.rules.ReportLines.{Report};
ghost use Rattle.cal_report.specs.rules.Resume.{AreAcceptedAmong, Resumes, ResumesAmong, begun_again, showing};
ghost use Rattle.cal_request.specs.rules.Request.{Request};
ghost use Rattle.cal_request.specs.declared.request.RunFault.{RunFault};
ghost use Rattle.cal_request.specs.declared.request.Status.{Status};
ghost use Rattle.cal_request.specs.declared.request.Status.TheVariants.{Fine};
ghost use Rattle.cal_request.specs.declared.verb.Verb.TheVariants.{Calendar, Timer};

/// The headline, word for word as the pages quote it:
///
/// For every list of accepted expressions, base instant and zones, the elapses printed are exactly the matching
/// instants after the base through 2199, each once, rising; a local time in a gap gives none, in a fold its first
/// instant alone; an iteration count n gives the first n, and starting again at any printed instant gives exactly the
/// rest; want of memory aside.
///
/// A matching instant is the place of a local second that matches: the second of Unix time to which `jiff`'s compatible
/// conversion takes this local second, if the clock of the expression's zone shows it then. "Rising" means in
/// increasing order. For a timer file, an elapse of an exception, which is an expression after `X-ExceptOnCalendar=`,
/// is not a matching instant.
pub fn headline()
    // If every expression is accepted, the report shows each of them in order: its heading, and then its first elapses.
    ensures calendar { (asked : Request) (read : Result (List ℕ) WholeFault) (base : ℤ) (es : List Expression)
        → asked.verb ≡ Calendar → IsBase asked base
        → asked.texts ≡ map (λ (e : Expression). e.text) es → AllByRecursion (IsAccepted asked) es
        → AreReportsOf asked base es (report asked read).out × IsFine (report asked read) }
    // In general, each accepted text has its report, and each rejected text has an error line on standard error.
    ensures each { (asked : Request) (read : Result (List ℕ) WholeFault) (base : ℤ) → asked.verb ≡ Calendar
        → IsBase asked base → AreAnswered asked base asked.texts (report asked read) }
    // The report of an accepted timer file consists of its headings, followed by the first elapses of the timer. The
    // timer's elapses are those of the file's expressions, except those that are also elapses of an exception.
    ensures timer { (asked : Request) (bytes : List ℕ) (base : ℤ) (s : Schedule)
        → asked.verb ≡ Timer → IsBase asked base → IsFileOf bytes s → AreAllAccepted asked s
        → IsReportOf asked base s (report asked (Ok bytes)).out × IsFine (report asked (Ok bytes)) }

    // The statements `calendar`, `each` and `timer` again, now about the bytes that a run appends to its writers. Here
    // they apply if the run returns `Ok`, that is, if no allocation and no write failed. The premise `ByReading` is
    // what the contract of `run` promises.
    ensures written { (asked : Request) (base : ℤ) (es : List Expression) (old new : Option (List ℕ)) (failed : Bool)
        (status : Status) (out_old out_new err_old err_new : Option (List ℕ)) → asked.verb ≡ Calendar
        → IsBase asked base → asked.texts ≡ map (λ (e : Expression). e.text) es → AllByRecursion (IsAccepted asked) es
        → ByReading asked old new failed (IsReported (Ok status) out_old out_new err_old err_new)
        → (text : List ℕ) × AreReportsOf asked base es text × Appends out_old out_new text
        × Appends err_old err_new [] × (status ≡ Fine) }
    ensures written_each { (asked : Request) (base : ℤ) (old new : Option (List ℕ)) (failed : Bool) (status : Status)
        (out_old out_new err_old err_new : Option (List ℕ)) → asked.verb ≡ Calendar → IsBase asked base
        → ByReading asked old new failed (IsReported (Ok status) out_old out_new err_old err_new)
        → (it : Report) × AreAnswered asked base asked.texts it × Appends out_old out_new it.out
        × Appends err_old err_new it.err × (status ≡ it.status) }
    ensures written_file { (asked : Request) (base : ℤ) (bytes : List ℕ) (s : Schedule) (old new : Option (List ℕ))
        (failed : Bool) (status : Status) (out_old out_new err_old err_new : Option (List ℕ)) → asked.verb ≡ Timer
        → IsBase asked base → IsFileOf bytes s → AreAllAccepted asked s
        → (run : ByReading asked old new failed (IsReported (Ok status) out_old out_new err_old err_new)) → run.read ≡ Ok bytes
        → (text : List ℕ) × IsReportOf asked base s text × Appends out_old out_new text
        × Appends err_old err_new [] × (status ≡ Fine) }

    // If the status is `Fine`, every text was accepted, or, for the verb `timer`, the timer file was.
    ensures accepted { (asked : Request) (read : Result (List ℕ) WholeFault) (base : ℤ) → asked.verb ≡ Calendar
        → IsBase asked base → (report asked read).status ≡ Fine → AreAccepted asked asked.texts }
    ensures accepted_file { (asked : Request) (bytes : List ℕ) (base : ℤ) → asked.verb ≡ Timer
        → IsBase asked base → (report asked (Ok bytes)).status ≡ Fine → IsAcceptedFile asked bytes }

    // The statements above leave no choice: a text is accepted as at most one expression, and reports and lists of
    // elapses are unique.
    ensures one_meaning { (asked : Request) (e f : Expression) → IsAccepted asked e → IsAccepted asked f
        → e.text ≡ f.text → e ≡ f }
    ensures one_output { (asked : Request) (base : ℤ) (es : List Expression) (a b : List ℕ)
        → AreReportsOf asked base es a → AreReportsOf asked base es b → a ≡ b }
    ensures one_report { (asked : Request) (base : ℤ) (s : Schedule) (a b : List ℕ)
        → IsReportOf asked base s a → IsReportOf asked base s b → a ≡ b }
    ensures one_list_of_elapses { (ts exceptions : List Timed) (base : ℤ) (xs ys : List ℤ)
        → AreElapses ts exceptions base xs → AreElapses ts exceptions base ys → xs ≡ ys }

    // If the present is an instant, so is each elapse. Each instant can be given as the base time, by `@` and its
    // seconds. If an elapse in a list becomes the base time, the elapses after this base time are exactly those that
    // follow it in the list. So a list can be printed in parts.
    ensures instants { (asked : Request) (base : ℤ) (s : Schedule) (xs : List ℤ) → IsInstant asked.now
        → IsBase asked base → AreElapsesOf s base xs → AreInstants xs }
    ensures based { (asked : Request) (secs : ℤ) → IsInstant secs → IsBase (started_at asked secs) secs }
    ensures again { (ts exceptions : List Timed) (base e : ℤ) (xs : List ℤ) (k : ℕ) → AreElapses ts exceptions base xs
        → slice_get xs k ≡ Some e → AreElapses ts exceptions e (drop (suc k) xs) }
    ensures in_parts { (ts exceptions : List Timed) (base e : ℤ) (xs ys : List ℤ) (k m : ℕ) → AreElapses ts exceptions base xs
        → slice_get xs k ≡ Some e → AreElapses ts exceptions e ys → take (suc k) xs ++ take m ys ≡ take (suc k + m) xs }

    // At each elapse of an expression, the clock of its zone shows a local second that matches. At two different
    // elapses of the expression, the clock never shows the same local second.
    ensures shown { (fields : Fields) (tz : TimeZone) (i : ℤ) → IsPlace (timed fields tz) i
        → (local : ℕ) × (local < 7_258_118_400) × (matches (sets_of fields) local ≡ true)
        × (local_shown_at tz i ≡ pos local) }
    ensures shown_once { (fields : Fields) (tz : TimeZone) (i j : ℤ) → IsPlace (timed fields tz) i
        → IsPlace (timed fields tz) j → local_shown_at tz i ≡ local_shown_at tz j → i ≡ j }
    // A local second that the clock never shows (in a gap) has no place. If `jiff` finds that the clock shows a local
    // second twice (in a fold), and the local second has a place, then this place is the local second minus the UTC
    // offset before the transition. The second occurrence would be the local second minus the UTC offset after the
    // transition. If the offset before the transition is the larger one, the place is earlier than that.
    ensures gap { (tz : TimeZone) (local : ℤ) → ((second : ℤ) → local_shown_at tz second ≡ local → ⊥)
        → place_of tz local ≡ None }
    ensures fold { (tz : TimeZone) (local i : ℤ) (before after : Offset)
        → ambiguous_at tz (datetime_of local) ≡ Fold before after → place_of tz local ≡ Some i
        → (i ≡ local -ℤ before.seconds) × (after.seconds <ℤ before.seconds → i <ℤ (local -ℤ after.seconds)) }
{}

/// States how to continue a report of which only a prefix was written. Count the elapses whose first line is complete
/// in the prefix. If there are any, run the same request with the last of them as its base time, and with `iterations`
/// reduced by their number. This run prints the headings and exactly the remaining elapses, or `never` if none remain;
/// its labels count from 1 again. If no elapse has a complete first line, run the original request again.
pub fn cut_output_resumes()
    // If the request is for one accepted calendar expression, its report can be continued after every prefix `front`.
    ensures calendar { (asked : Request) (read : Result (List ℕ) WholeFault) (base : ℤ) (e : Expression)
        (front rest : List ℕ) → asked.verb ≡ Calendar → IsBase asked base → asked.texts ≡ e.text ∷ []
        → IsAccepted asked e → (report asked read).out ≡ front ++ rest → Resumes asked base (alone e) read front }
    // If at least one of the texts of a request for `calendar` is accepted, the output can be continued after every
    // prefix `front`. `es` are the expressions of the accepted texts. The prefix consists of complete reports and of a
    // prefix of the next report. This next report can be continued as if its expression had been requested alone. There
    // is only one way to divide `front` into complete reports and a prefix of the next one (`one_place`).
    ensures several { (asked : Request) (read : Result (List ℕ) WholeFault) (base : ℤ) (es : List Expression)
        (front rest : List ℕ) → asked.verb ≡ Calendar → IsBase asked base → AreAcceptedAmong asked asked.texts es
        → 0 < length es → (report asked read).out ≡ front ++ rest → ResumesAmong asked base es read front }
    ensures one_place { (asked : Request) (base : ℤ) (es : List Expression) (read : Result (List ℕ) WholeFault)
        (front : List ℕ) (p q : ResumesAmong asked base es read front) → (p.before ≡ q.before) × (p.last ≡ q.last) }
    // Every request for `calendar` has exactly one list of accepted expressions. If the list is empty, standard output
    // is empty too.
    ensures accepted { (asked : Request) → asked.verb ≡ Calendar
        → (es : List Expression) × AreAcceptedAmong asked asked.texts es }
    ensures one_list_of_expressions { (asked : Request) (texts : List (List ℕ)) (es fs : List Expression)
        → AreAcceptedAmong asked texts es → AreAcceptedAmong asked texts fs → es ≡ fs }
    ensures nothing { (asked : Request) (read : Result (List ℕ) WholeFault) (base : ℤ) → asked.verb ≡ Calendar
        → IsBase asked base → AreAcceptedAmong asked asked.texts [] → (report asked read).out ≡ [] }
    // If the request is for an accepted timer file, its report can be continued after every prefix `front`.
    ensures timer { (asked : Request) (bytes : List ℕ) (base : ℤ) (s : Schedule) (front rest : List ℕ)
        → asked.verb ≡ Timer → IsBase asked base → IsFileOf bytes s → AreAllAccepted asked s
        → (report asked (Ok bytes)).out ≡ front ++ rest → Resumes asked base s (Ok bytes) front }

    // The request `begun_again`, which continues a report, prints exactly the remaining elapses. Its base time is `@`
    // with the seconds of the last elapse whose first line is complete, or the original base time if there is none.
    ensures again { (asked : Request) (read : Result (List ℕ) WholeFault) (base : ℤ) (s : Schedule) (front : List ℕ)
        → IsInstant asked.now → IsBase asked base → (r : Resumes asked base s read front)
        → (report (begun_again asked r.shown r.number) read).out ≡ showing asked s (drop r.number r.shown) }

    // Whatever a run returns, the bytes that it appended to its writer `out` are a prefix of the report. After this
    // prefix, the report can be continued as stated above. The premise `ByReading` is what the contract of `run`
    // promises.
    ensures written { (asked : Request) (base : ℤ) (e : Expression) (result : Result Status RunFault)
        (old new : Option (List ℕ)) (failed : Bool) (out_old out_new err_old err_new : Option (List ℕ))
        → asked.verb ≡ Calendar → IsBase asked base → asked.texts ≡ e.text ∷ [] → IsAccepted asked e
        → (run : ByReading asked old new failed (IsReported result out_old out_new err_old err_new))
        → (front : List ℕ) × Appends out_old out_new front × Resumes asked base (alone e) run.read front }
    ensures written_several { (asked : Request) (base : ℤ) (es : List Expression) (result : Result Status RunFault)
        (old new : Option (List ℕ)) (failed : Bool) (out_old out_new err_old err_new : Option (List ℕ))
        → asked.verb ≡ Calendar → IsBase asked base → AreAcceptedAmong asked asked.texts es → 0 < length es
        → (run : ByReading asked old new failed (IsReported result out_old out_new err_old err_new))
        → (front : List ℕ) × Appends out_old out_new front × ResumesAmong asked base es run.read front }
    ensures written_file { (asked : Request) (bytes : List ℕ) (base : ℤ) (s : Schedule)
        (result : Result Status RunFault) (old new : Option (List ℕ)) (failed : Bool)
        (out_old out_new err_old err_new : Option (List ℕ))
        → asked.verb ≡ Timer → IsBase asked base → IsFileOf bytes s → AreAllAccepted asked s
        → (run : ByReading asked old new failed (IsReported result out_old out_new err_old err_new)) → run.read ≡ Ok bytes
        → (front : List ℕ) × Appends out_old out_new front × Resumes asked base s (Ok bytes) front }
{}
