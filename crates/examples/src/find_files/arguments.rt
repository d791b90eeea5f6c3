//! The parsed arguments, and their globs.

use crate::command::Fault;
use crate::text_file::TextFile;
use globset::{Error, Glob, GlobBuilder, GlobSetBuilder, Searcher};
use std::alloc::Global;

/// The options that have no argument.
#[derive(Clone, Copy, Default)]
pub struct Switches {
    pub case_insensitive: bool,
    pub literal_separator: bool,
    pub ends_in_nul: bool,
    pub count: bool,
    /// Whether `.gitignore` files are read, and ignored paths are left out.
    pub ignored: bool,
    pub help: bool,
    pub version: bool,
}

/// The expected kind of the next argument.
#[derive(Clone, Copy)]
enum Next {
    Any,
    /// The name of a file of globs, after `-f`.
    File,
    /// The name of an ignore file, after `--excludes`.
    Excludes,
    /// No option, after `--`.
    Word,
}

/// The arguments of a search.
#[derive(Drop)]
pub struct Arguments<'a> {
    pub switches: Switches,
    /// The names of the files of globs.
    pub files: Vec<&'a str>,
    /// The names of ignore files for the directory, of which a later one takes precedence.
    pub excludes: Vec<&'a str>,
    /// The directory, and then globs.
    pub words: Vec<&'a str>,
    next: Next,
}

impl<'a> Arguments<'a> {
    /// Reads the arguments. Fails if an option is unknown, if the directory is missing or empty, or if there is neither a glob
    /// nor a file of globs nor `--ignored`.
    pub fn read(alloc: Global, arguments: &'a [String]) -> Result<Arguments<'a>, Fault> {
        let mut read = Arguments {
            switches: Switches::default(),
            files: Vec::new(alloc),
            excludes: Vec::new(alloc),
            words: Vec::new(alloc),
            next: Next::Any,
        };
        for argument in arguments {
            read.push(argument.as_str())?;
        }
        let is_complete = !matches!(read.next, Next::File | Next::Excludes);
        let has_filter = read.has_globs() || read.switches.ignored;
        let is_search = is_complete && has_filter && !read.folder().is_empty();
        if is_search || read.switches.help || read.switches.version {
            Ok(read)
        } else {
            Err(Fault::Usage)
        }
    }

    /// Takes the next argument. Fails if it is an unknown option.
    fn push(&mut self, argument: &'a str) -> Result<(), Fault> {
        let is_option = argument.len() > 1 && argument.starts_with('-');
        match self.next {
            Next::Any if is_option => return self.set(argument),
            Next::Any | Next::Word => return Ok(self.words.push(argument)?),
            Next::File => self.files.push(argument)?,
            Next::Excludes => self.excludes.push(argument)?,
        }
        self.next = Next::Any;
        Ok(())
    }

    /// Takes an argument that begins with `-`. Returns an error if it is an unknown option.
    fn set(&mut self, option: &str) -> Result<(), Fault> {
        match option {
            "-f" => self.next = Next::File,
            "--excludes" => {
                self.switches.ignored = true;
                self.next = Next::Excludes;
            }
            "--" => self.next = Next::Word,
            "-i" => self.switches.case_insensitive = true,
            "-s" => self.switches.literal_separator = true,
            "-0" => self.switches.ends_in_nul = true,
            "--count" => self.switches.count = true,
            "--ignored" => self.switches.ignored = true,
            "-h" | "--help" => self.switches.help = true,
            "--version" => self.switches.version = true,
            _ => return Err(Fault::Usage),
        }
        Ok(())
    }

    /// Returns the directory, or nothing if it is missing.
    pub fn folder(&self) -> &'a str {
        self.words.first().copied().unwrap_or("")
    }

    /// Returns whether there is a glob, or a file of globs.
    fn has_globs(&self) -> bool {
        self.words.len() > 1 || !self.files.is_empty()
    }
}

/// Reads the globs of the arguments, and of the files that they name; without any of them every path matches. Fails with the
/// error of the first text that is not a glob, or if a file cannot be read.
pub fn read_globs(rt: &HostRuntime, arguments: &Arguments<'_>) -> Result<Searcher, Fault> {
    let alloc = rt.alloc();
    let mut globs = GlobSetBuilder::new(alloc);
    if !arguments.has_globs() {
        globs.push(Glob::new(alloc, "**")?)?;
    }
    for text in arguments.words.iter().skip(1) {
        globs.push(glob(alloc, text, arguments.switches)?)?;
    }
    for name in &arguments.files {
        let file = TextFile::read(rt, name)?;
        push_lines(alloc, &mut globs, &file, arguments.switches)?;
    }
    Ok(Searcher::new(alloc, &globs.into_set()?)?)
}

/// Adds the globs of the lines of a file. Fails with the line if a text is not a glob.
fn push_lines(
    alloc: Global,
    globs: &mut GlobSetBuilder,
    file: &TextFile,
    switches: Switches,
) -> Result<(), Fault> {
    for (i, line) in file.lines(alloc)?.iter().enumerate() {
        if line.trim().is_empty() || line.starts_with('#') {
            continue;
        }
        match glob(alloc, line, switches) {
            Ok(glob) => globs.push(glob)?,
            Err(error) => return file.fail(alloc, i + 1, line.as_bytes(), error.kind()),
        }
    }
    Ok(())
}

/// Returns the glob of a text.
fn glob(alloc: Global, text: &str, switches: Switches) -> Result<Glob, Error> {
    GlobBuilder::new(text)
        .case_insensitive(switches.case_insensitive)
        .literal_separator(switches.literal_separator)
        .build(alloc)
}
