ghost use Rattle.std.specs.Prelude.{◌≡◌, List, All, map, flat_map};
ghost use Rattle.pb_bench.specs.Sections.{Written, IsWritten, text_of, section_of, sections_in};

/// Sections that are written one behind the other are read back.
pub fn sections_are_read_back()
    ensures { (written : List Written) → All IsWritten written → sections_in (flat_map text_of written) ≡ map section_of written }
{}
