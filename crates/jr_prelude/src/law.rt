// The laws of the prelude.
ghost use Rattle.jr_defs.specs.Formed.{IsFormed};
ghost use Rattle.jr_defs.specs.Laws.{HasBareObject};
ghost use Rattle.jr_defs.specs.Prelude.{lang_text, io_text};
ghost use Rattle.jr_prelude.specs.Begins.{BeginsWithLang, HasLangTypes};
ghost use Rattle.jr_prelude.specs.Io.{io_unit};
ghost use Rattle.jr_prelude.specs.Lang.{lang_unit};
ghost use Rattle.jr_prelude.specs.Numbers.{HasMachineNumbers, ListsAllOwn};
ghost use Rattle.jr_prelude.specs.Laws.{Reads, FilesAreProgram, FilesAreOneProgram, OfFiles, NamesTypesOnce, HasOneObject, HasOneString, HasOneBinding};

/// The texts of the prelude read as their trees, and as no other units (JLS 7.3).
pub fn prelude_is_read()
    ensures lang { Reads lang_text lang_unit }
    ensures io { Reads io_text io_unit }
{}

/// Files that each read as a unit are a program, and files are one program at most.
pub fn files_are_one_program()
    ensures some { FilesAreProgram }
    ensures one { FilesAreOneProgram }
{}

/// The rows of each program of files begin with those of java.lang.
pub fn programs_begin_with_lang()
    ensures { OfFiles BeginsWithLang }
{}

/// Each program of files has the types of java.lang, each once and as a public class. One is Object, which names nothing in its header, and one
/// is String, which is final (JLS 4.3.2, 4.3.3).
pub fn programs_have_types_of_lang()
    ensures types { OfFiles HasLangTypes }
    ensures once { OfFiles NamesTypesOnce }
    ensures object { OfFiles HasOneObject }
    ensures bare { OfFiles HasBareObject }
    ensures string { OfFiles HasOneString }
{}

/// The rows of each program of files are formed as the law of one binding asks.
pub fn programs_of_files_are_formed()
    ensures { OfFiles IsFormed }
{}

/// Each program of files has at most one binding.
pub fn one_binding_of_files()
    ensures { OfFiles HasOneBinding }
{}

/// What the reference machine knows by number is listed with what it is, a class or a method of the prelude, and in each program of files
/// there is one declaration that is so, and it alone has that number (JLS 4.3.2, 4.3.3, 8.4.1, 11.1.1).
pub fn machine_numbers_are_of_the_prelude()
    ensures listed { ListsAllOwn }
    ensures each { OfFiles HasMachineNumbers }
{}
