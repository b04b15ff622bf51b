// Laws of canonical names, and of what a run reads.
ghost use Rattle.std.specs.Prelude.{◌≡◌, ℕ, ◌<◌, List, length};
ghost use Rattle.jr_base.specs.declared.text.Text as texts;
ghost use Rattle.jr_tree.specs.Local.{IsLocal};
ghost use Rattle.jr_tree.specs.Rows.{Rows};
ghost use Rattle.jr_defs.specs.Rules.{CanonicalName};
ghost use Rattle.jr_codes.specs.declared.source.Source.{Source};
ghost use Rattle.jr_elab.specs.Cores.{IsReadWhole};
ghost use Rattle.jr_run.specs.Names.{canonical_path};
ghost use Rattle.jr_run.specs.Reports.{IsPlacedSource};
ghost use Rattle.jr_run.specs.Starting.{IsReadWorld};

/// A type of a named package has the canonical name by which an import may name it (JLS 6.7, 7.5.1).
pub fn canonical_names_are_told()
    ensures { (p : Rows) → IsLocal p → (c : ℕ) (path : List texts.Text) → c < length p → CanonicalName p c path → canonical_path p c ≡ path }
{}

/// A source that is read whole has what a report and the search for a start read.
pub fn whole_sources_are_read()
    ensures placed { (s : Source) → IsReadWhole s → IsPlacedSource s }
    ensures world { (s : Source) → IsReadWhole s → IsReadWorld s.view.now.sight.world }
{}
