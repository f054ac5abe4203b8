//! Laws on the definition of a run.
ghost use Rattle.std.specs.Prelude.{◌≡◌, ◌≢◌, ◌<◌, ◌⊎◌, ℕ, ℤ, List, ◌++◌, Some, true, false, length, slice_index_or};
ghost use Rattle.text_io.specs.Outside.{Rose};
ghost use Rattle.fku_types.specs.declared.points.Point.{Point};
ghost use Rattle.section_core.specs.Canonical.{text_of};
ghost use Rattle.cert_checker.specs.declared.certs.Verdict.TheVariants.{Accept};
ghost use Rattle.triangle_meshes.specs.Meshes.{Surface};
ghost use Rattle.mesh_measures.specs.declared.crossing.Corners.{Corners};
ghost use Rattle.mesh_measures.specs.Crossings.{crossing_pairs, part_corners, pierces};
ghost use Rattle.surface_cli.specs.Words.{meaning};
ghost use Rattle.surface_cli.specs.Out.{IsOut};
ghost use Rattle.surface_cli.specs.declared.commands.Command.{Command};
ghost use Rattle.surface_cli.specs.declared.commands.Command.TheVariants.{Certify, Check, Count, Edit, Tilings};
ghost use Rattle.command_replies.specs.declared.status.Status.{Status};
ghost use Rattle.command_replies.specs.declared.status.Status.TheVariants.{Done, NoMemory};
ghost use Rattle.command_replies.specs.Stages.{IsSurfaceOf};
ghost use Rattle.pair_commands.specs.Check.{verdict_text};
ghost use Rattle.surface_commands.specs.Count.{count_text};
ghost use Rattle.surface_commands.specs.Edit.{Editing};
ghost use Rattle.surface_commands.specs.RingCaps.{IsRingSurfaceOf};
ghost use Rattle.surface_cli.specs.Run.{IsRun, IsToDensify, Outside};
ghost use Rattle.surface_cli.specs.Headline.{AsksFor, AsksForRingSurface, AsksForSurface};
ghost use Rattle.run_laws.specs.Laws.{AreEditsOf, EndsLine, IsListedCost, IsSurfaceText, IsValidInput, command_of};

/// For given words and a given input the definition leaves one status, one text and one count of pairs: what reads as
/// objects reads only as these, objects have one list of pairs each or one first fault, a pair has one chosen tiling,
/// and so there is one surface, one report and one slice; a list of edits has one list of answers.
pub fn runs_have_one_text()
    ensures { (words : List (List ℕ)) (input : List ℕ) (s t : Status) (a b : List ℕ) (m n : ℕ)
        → IsOut words input s a m
        → IsOut words input t b n
        → (s ≡ t) × (a ≡ b) × (m ≡ n) }
{}

/// Words that ask for one command leave one status, one text and one count of pairs for a given input, whatever number
/// of workers they ask for: `--workers` does not change what is written.
pub fn workers_change_no_text()
    ensures { (words other : List (List ℕ)) (input : List ℕ) (s t : Status) (a b : List ℕ) (m n : ℕ)
        → command_of words ≡ command_of other
        → IsOut words input s a m
        → IsOut other input t b n
        → (s ≡ t) × (a ≡ b) × (m ≡ n) }
{}

/// A valid input has only the status 0. Valid is a section text within the limit whose objects have no fault, for
/// `tilings`, `reconstruct` and `report`; for `slice` the height must also have no fault, for `certify` the number must
/// be at most that of the pairs, and for `ringcaps` no group may be too long. So if neither source nor sink fails, a
/// run ends there with the status 0 or out of memory.
pub fn valid_inputs_are_taken()
    ensures done { (words : List (List ℕ)) (input text : List ℕ) (command : Command) (status : Status) (n : ℕ)
        → AsksFor command words
        → IsValidInput command input
        → IsOut words input status text n
        → status ≡ Done }
    ensures run { (words : List (List ℕ)) (input : List ℕ) (command : Command) (o : Outside) (status : Status)
        → AsksFor command words
        → IsValidInput command input
        → o.left ≡ Some input
        → (Rose o.read_faults o.read_faults_after → ⊥)
        → (Rose o.write_faults o.write_faults_after → ⊥)
        → IsRun words o status
        → (status ≡ Done) ⊎ (status ≡ NoMemory) }
{}

/// `reconstruct` never refuses a text that `densify` writes with the status 0: the definition leaves only the status 0
/// for it.
pub fn densified_texts_are_taken()
    ensures { (words other : List (List ℕ)) (input text shown : List ℕ) (status : Status) (m n : ℕ)
        → IsToDensify (meaning words)
        → IsOut words input Done text m
        → AsksForSurface other
        → IsOut other text status shown n
        → status ≡ Done }
{}

/// For a text that `reconstruct` or `ringcaps` writes with the status 0, `count` writes, with the status 0, `CLOSED
/// yes` and the numbers of parts, vertices, polygons and edges of that surface.
pub fn surfaces_are_counted_closed()
    ensures plain { (words other : List (List ℕ)) (input text : List ℕ) (n : ℕ)
        → AsksForSurface words
        → IsOut words input Done text n
        → AsksFor Count other
        → (mesh : Surface) × IsSurfaceText IsSurfaceOf input text mesh
        × IsOut other text Done (count_text mesh true) 0 }
    ensures rings { (words other : List (List ℕ)) (input text : List ℕ) (n : ℕ)
        → AsksForRingSurface words
        → IsOut words input Done text n
        → AsksFor Count other
        → (mesh : Surface) × IsSurfaceText IsRingSurfaceOf input text mesh
        × IsOut other text Done (count_text mesh true) 0 }
{}

/// With the status 0, `edit` writes the answers to the edits, `EDITS` with their number, and then exactly the text that
/// `reconstruct` writes, with the status 0, for the canonical text of the edited sections.
pub fn edits_end_with_the_surface()
    ensures { (words other : List (List ℕ)) (input text : List ℕ) (n : ℕ)
        → AsksFor Edit words
        → IsOut words input Done text n
        → AsksForSurface other
        → (x : Editing) × (surface : List ℕ) × (m : ℕ) × AreEditsOf input text surface x
        × IsOut other (text_of x.sections) Done surface m }
{}

/// Take what `certify --pair k` writes with the status 0 for a section text that ends with a line feed. `check` accepts
/// it after this text: the status is 0, and the line is `ACCEPT PAIR k COST c`, where c is the cost that `tilings`
/// prints for pair k.
pub fn certificates_are_accepted()
    ensures { (words lists checks : List (List ℕ)) (k : ℕ) (input cert listed shown : List ℕ) (status : Status)
        (l m n : ℕ)
        → AsksFor (Certify k) words
        → IsOut words input Done cert l
        → AsksFor Tilings lists
        → IsOut lists input Done listed m
        → AsksFor Check checks
        → EndsLine input
        → IsOut checks (input ++ cert) status shown n
        → (cost : ℤ) × IsListedCost input listed k cost × (status ≡ Done) × (shown ≡ verdict_text k cost Accept)
        × (n ≡ 0) }
{}

/// If `crossings` reports that no two triangles of a part cross, no edge of a triangle of the part passes through
/// another triangle of it.
pub fn no_crossings_leave_no_passing_edge()
    ensures { (vertices : List Point) (part : List (List ℕ)) (i j : ℕ) (t : Corners)
        → crossing_pairs (part_corners vertices part) ≡ 0
        → i < length part
        → j < length part
        → i ≢ j
        → pierces (slice_index_or (part_corners vertices part) i t) (slice_index_or (part_corners vertices part) j t)
        ≡ false }
{}
