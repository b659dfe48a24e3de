ghost use Rattle.std.specs.Prelude.{◌≡◌, ◌++◌, ◌∷◌, [], ◌+◌, ◌-◌, ◌<◌, ◌≤◌, ◌^◌, length, slice_get, Some, None, OnOk, OnErr, IfOk, IfErr, IfSome, MatchOption, true, false};
ghost use Rattle.cx_outside.specs.Fault.{Rose};
ghost use Rattle.cx_outside.specs.Folder.{Folder, WhereTold};
ghost use Rattle.cx_includes.specs.declared.source.Source.{Source as Kept};
ghost use Rattle.cx_includes.specs.Directive.{name_in};
ghost use Rattle.cx_includes.specs.Unit.{most_bytes, most_open, longest_file_name, nothing_taken, opened, with_token, with_contracts, with_cstdio, Takes, IsTakenAlready};
ghost use Rattle.cx_includes.specs.Fault.{IsAtFault, Fails};
ghost use Rattle.cx_includes.specs.Taking.{index_in, source_at, taken, IsSource, IsSound, Agrees, Goes, Passes, IsDue, IsHad, Pushes, IsPartWithin, IsPartFault, IsFileFault, TakesFile, IsFinished, files_of};
ghost use Rattle.cx_includes.specs.Place.{column_at};

use crate::assembled::{Assembled, Placed, SourceFile};
use crate::assembly::AssembleFault;
use crate::names::Names;
use crate::part::{Directive, Part, Span, Spot};
use crate::reached::Reached;
use crate::source::Source;
use cx_lexer::LexFault;
use cx_outside::{Files, GetFault, Items, NoMemory, Text};
use cx_syntax::Token;
use std::alloc::Global;

/// The most bytes that the files taken for a unit have together.
const MOST_BYTES: u32 = 1_048_576;

/// How many files can be open below the unit's own.
const MOST_OPEN: u32 = 16;

/// The most bytes that a file's name has in an include.
const LONGEST_FILE_NAME: usize = 1024;

/// What was taken for a unit so far.
#[derive(Drop)]
pub struct Taking {
    pub alloc: Global,
    pub names: Names,
    /// The files in the order in which each was first taken.
    pub sources: Vec<Source>,
    /// How many bytes all takings have together.
    pub bytes: u32,
    pub placed: Items<Placed>,
    pub contracts: Option<u32>,
    pub cstdio: Option<u32>,
}

impl Taking {
    pub fn new(alloc: Global) -> Self
        ensures sound { IsSound result }
        ensures taken { taken result ≡ nothing_taken }
        ensures sources { result.sources.items ≡ [] }
    {
        Taking {
            alloc,
            names: Names::new(alloc),
            sources: Vec::new(alloc),
            bytes: 0,
            placed: Items::new(alloc),
            contracts: None,
            cstdio: None,
        }
    }

    /// Adds a token of a file.
    fn take_token(&mut self, file: u32, token: Token, spot: Spot) -> Result<(), NoMemory>
        requires sound { IsSound self.old }
        requires inside { file < length self.old.sources.items }
        requires ordered { token.start ≤ token.end }
        requires lies { token.end ≤ length (source_at self.old file).file.text }
        ensures taken { OnOk result (taken self.new ≡ with_token (taken self.old) (source_at self.old file).file.name token spot) }
        ensures sound { OnOk result (IsSound self.new) }
        ensures sources { self.new.sources ≡ self.old.sources }
    {
        number(self.placed.items().len() + 1)?;
        self.placed.push(Placed {
            token,
            file,
            line: spot.line,
            column: spot.column,
        })?;
        Ok(())
    }

    /// Notes how many tokens stand before the first include of `<contracts>`.
    fn note_contracts(&mut self)
        requires { IsSound self.old }
        ensures taken { taken self.new ≡ with_contracts (taken self.old) }
        ensures sound { IsSound self.new }
        ensures sources { self.new.sources ≡ self.old.sources }
    {
        if self.contracts.is_none() {
            self.contracts = Some(self.placed.items().len() as u32);
        }
    }

    /// Notes how many tokens stand before the first include of `<cstdio>`.
    fn note_cstdio(&mut self)
        requires { IsSound self.old }
        ensures taken { taken self.new ≡ with_cstdio (taken self.old) }
        ensures sound { IsSound self.new }
        ensures sources { self.new.sources ≡ self.old.sources }
    {
        if self.cstdio.is_none() {
            self.cstdio = Some(self.placed.items().len() as u32);
        }
    }

    /// The name of a file.
    fn name_of(&self, file: u32) -> Result<Text, NoMemory>
        requires { file < length self.now.sources.items }
        ensures { IfOk result (λ name. name ≡ (source_at self.now file).file.name) }
    {
        Text::copy_of(self.alloc, self.sources[file as usize].file.name.bytes())
    }

    /// The name that an include has in its file.
    fn included_name(&self, file: u32, span: Span) -> Result<Text, NoMemory>
        requires inside { file < length self.now.sources.items }
        requires ordered { span.start ≤ span.end }
        requires lies { span.end ≤ length (source_at self.now file).file.text }
        ensures { IfOk result (λ name. name ≡ name_in (source_at self.now file).file.text span) }
    {
        let text = self.sources[file as usize].file.text.bytes();
        Text::copy_of(self.alloc, &text[span.start as usize..span.end as usize])
    }

    /// The fault of a name that is too long.
    fn long_name(&self, file: u32, span: Span, line: u32) -> Result<AssembleFault, NoMemory>
        requires sound { IsSound self.now }
        requires inside { file < length self.now.sources.items }
        requires ordered { span.start ≤ span.end }
        requires lies { span.end ≤ length (source_at self.now file).file.text }
        ensures { IfOk result (λ fault. fault ≡ AssembleFault.Lex (source_at self.now file).file.name line (column_at (source_at self.now file).file.text span.start) (LexFault.LongName span.start (span.end - span.start))) }
    {
        let text = self.sources[file as usize].file.text.bytes();
        let column = Reached::START.passed(text, 0, span.start as usize).column;
        let name = self.name_of(file)?;
        Ok(AssembleFault::Lex(
            name,
            line,
            column,
            LexFault::LongName(span.start, span.end - span.start),
        ))
    }

    /// The bytes of a file, if no more than what is left.
    fn fetch<F: Files>(&self, name: &[u8], files: &mut F) -> Result<Text, AssembleFault>
        requires { self.now.bytes ≤ most_bytes }
        ensures told { IfOk result (λ text. WhereTold (F.content files.old) (λ folder. folder name.now ≡ Some text) (Unit {0})) }
        ensures fits { IfOk result (λ text. self.now.bytes + length text ≤ most_bytes) }
        ensures fault { IfErr result (IsHad (F.content files.old) (Rose (F.faults files.old) (F.faults files.new)) name.now self.now.bytes) }
        ensures stays { F.content files.new ≡ F.content files.old }
        ensures puts { F.put_faults files.new ≡ F.put_faults files.old }
        ensures later { F.faults files.old ≤ F.faults files.new }
    {
        match files.get(self.alloc, name, (MOST_BYTES - self.bytes) as usize) {
            Ok(text) => Ok(text),
            Err(GetFault::OutOfMemory) => Err(AssembleFault::OutOfMemory),
            Err(GetFault::Missing) => Err(AssembleFault::Missing(Text::copy_of(self.alloc, name)?)),
            Err(GetFault::Long) => Err(AssembleFault::Large(u64::from(MOST_BYTES) + 1)),
            Err(GetFault::Failed) => Err(AssembleFault::Failed),
        }
    }

    /// Takes a file that was read before once more. Its bytes count again.
    fn open_again<F: Files>(&mut self, file: u32, files: &mut F) -> Result<(), AssembleFault>
        requires sound { IsSound self.old }
        requires inside { file < length self.old.sources.items }
        ensures taken { OnOk result (taken self.new ≡ opened (taken self.old) (source_at self.old file).file.name (source_at self.old file).file.text) }
        ensures fits { OnOk result (self.new.bytes ≤ most_bytes) }
        ensures sound { OnOk result (IsSound self.new) }
        ensures sources { self.new.sources ≡ self.old.sources }
        ensures fault { IfErr result (IsHad (F.content files.old) (Rose (F.faults files.old) (F.faults files.new)) (source_at self.old file).file.name self.old.bytes) }
        ensures stays { F.content files.new ≡ F.content files.old }
        ensures puts { F.put_faults files.new ≡ F.put_faults files.old }
        ensures later { F.faults files.old ≤ F.faults files.new }
    {
        let length = self.sources[file as usize].file.text.bytes().len();
        if length > (MOST_BYTES - self.bytes) as usize {
            let name = self.name_of(file)?;
            // The files are asked once more, so that they count the fault.
            self.fetch(name.bytes(), files)?;
            return Err(AssembleFault::OutOfMemory);
        }
        self.bytes += length as u32;
        Ok(())
    }

    /// Takes a file for the first time, and answers its index.
    pub fn open_first<F: Files>(&mut self, name: &[u8], files: &mut F) -> Result<u32, AssembleFault>
        requires sound { IsSound self.old }
        requires unknown { index_in self.old.names name.now ≡ None }
        ensures pushed { IfOk result (λ file. Pushes (F.content files.old) name.now self.old self.new file) }
        ensures sound { OnOk result (IsSound self.new) }
        ensures sources { OnErr result (self.new.sources.items ≡ self.old.sources.items) }
        ensures fault { IfErr result (IsHad (F.content files.old) (Rose (F.faults files.old) (F.faults files.new)) name.now self.old.bytes) }
        ensures stays { F.content files.new ≡ F.content files.old }
        ensures puts { F.put_faults files.new ≡ F.put_faults files.old }
        ensures later { F.faults files.old ≤ F.faults files.new }
    {
        let text = self.fetch(name, files)?;
        let length = text.bytes().len() as u32;
        let file = number(self.sources.len())?;
        let source = Source::new(self.alloc, name, text)?;
        self.names.add(self.alloc, name, file)?;
        self.keep(source)?;
        self.bytes += length;
        Ok(file)
    }

    /// Whether a file that was read holds `#pragma once`.
    fn is_once(&self, known: Option<u32>) -> bool
        requires { IfSome known (λ file. file < length self.now.sources.items) }
        ensures { MatchOption known (result ≡ false) (λ file. result ≡ (source_at self.now file).once) }
    {
        match known {
            Some(file) => self.sources[file as usize].once,
            None => false,
        }
    }

    /// Opens what an include line names, unless it is taken already. The index of the file that is opened, if there is
    /// one.
    fn include<F: Files>(
        &mut self,
        file: u32,
        span: Span,
        line: u32,
        depth: u32,
        files: &mut F,
    ) -> Result<Option<u32>, AssembleFault>
        requires sound { IsSound self.old }
        requires inside { file < length self.old.sources.items }
        requires ordered { span.start ≤ span.end }
        requires lies { span.end ≤ length (source_at self.old file).file.text }
        ensures goes { Goes (F.content files.old) self.old self.new }
        ensures passed { IfOk result (Passes depth (source_at self.old file).file (Part.Line (Directive.File span) line) self.old self.new) }
        ensures sound { OnOk result (IsSound self.new) }
        ensures fault { IfErr result (IsDue (F.content files.old) (Rose (F.faults files.old) (F.faults files.new)) self.new (IsPartFault depth (source_at self.old file).file (taken self.old) (Part.Line (Directive.File span) line))) }
        ensures stays { F.content files.new ≡ F.content files.old }
        ensures puts { F.put_faults files.new ≡ F.put_faults files.old }
        ensures later { F.faults files.old ≤ F.faults files.new }
    {
        let name = self.included_name(file, span)?;
        if name.bytes().len() > LONGEST_FILE_NAME {
            return Err(self.long_name(file, span, line)?);
        }
        let known = self.names.get(name.bytes());
        if self.is_once(known) {
            return Ok(None);
        }
        if depth >= MOST_OPEN {
            return Err(AssembleFault::Depth(self.name_of(file)?, line));
        }
        match known {
            Some(inner) => {
                self.open_again(inner, files)?;
                Ok(Some(inner))
            }
            None => {
                let inner = self.open_first(name.bytes(), files)?;
                Ok(Some(inner))
            }
        }
    }

    /// Takes a directive line of a file. The index of the file that is opened by it, if there is one.
    fn pass_line<F: Files>(
        &mut self,
        file: u32,
        directive: Directive,
        line: u32,
        depth: u32,
        files: &mut F,
    ) -> Result<Option<u32>, AssembleFault>
        requires sound { IsSound self.old }
        requires inside { file < length self.old.sources.items }
        requires lies { IsPartWithin (source_at self.old file).file.text (Part.Line directive line) }
        ensures goes { Goes (F.content files.old) self.old self.new }
        ensures passed { IfOk result (Passes depth (source_at self.old file).file (Part.Line directive line) self.old self.new) }
        ensures sound { OnOk result (IsSound self.new) }
        ensures fault { IfErr result (IsDue (F.content files.old) (Rose (F.faults files.old) (F.faults files.new)) self.new (IsPartFault depth (source_at self.old file).file (taken self.old) (Part.Line directive line))) }
        ensures stays { F.content files.new ≡ F.content files.old }
        ensures puts { F.put_faults files.new ≡ F.put_faults files.old }
        ensures later { F.faults files.old ≤ F.faults files.new }
    {
        match directive {
            Directive::Once => Ok(None),
            Directive::Contracts => {
                self.note_contracts();
                Ok(None)
            }
            Directive::Cstdio => {
                self.note_cstdio();
                Ok(None)
            }
            Directive::File(span) => self.include(file, span, line, depth, files),
        }
    }

    /// Takes a part of a file. The index of the file that is opened by it, if there is one.
    fn pass<F: Files>(
        &mut self,
        file: u32,
        part: Part,
        depth: u32,
        files: &mut F,
    ) -> Result<Option<u32>, AssembleFault>
        requires sound { IsSound self.old }
        requires inside { file < length self.old.sources.items }
        requires lies { IsPartWithin (source_at self.old file).file.text part }
        ensures goes { Goes (F.content files.old) self.old self.new }
        ensures passed { IfOk result (Passes depth (source_at self.old file).file part self.old self.new) }
        ensures sound { OnOk result (IsSound self.new) }
        ensures fault { IfErr result (IsDue (F.content files.old) (Rose (F.faults files.old) (F.faults files.new)) self.new (IsPartFault depth (source_at self.old file).file (taken self.old) part)) }
        ensures stays { F.content files.new ≡ F.content files.old }
        ensures puts { F.put_faults files.new ≡ F.put_faults files.old }
        ensures later { F.faults files.old ≤ F.faults files.new }
    {
        match part {
            Part::Token(token, spot) => {
                self.take_token(file, token, spot)?;
                Ok(None)
            }
            Part::Line(directive, line) => self.pass_line(file, directive, line, depth, files),
            Part::BadLine(line) => Err(AssembleFault::BadLine(self.name_of(file)?, line)),
            Part::Fault(fault, spot) => Err(AssembleFault::Lex(
                self.name_of(file)?,
                spot.line,
                spot.column,
                fault,
            )),
        }
    }

    /// How many parts a file has.
    fn part_count(&self, file: u32) -> usize
        requires { file < length self.now.sources.items }
        ensures { result ≡ length (source_at self.now file).parts }
    {
        self.sources[file as usize].parts.items().len()
    }

    /// A part of a file.
    fn part_at(&self, file: u32, index: usize) -> Part
        requires inside { file < length self.now.sources.items }
        requires within { index < length (source_at self.now file).parts }
        ensures { slice_get (source_at self.now file).parts index ≡ Some result }
    {
        self.sources[file as usize].parts.items()[index]
    }

    /// Takes a file that was opened, with the files that it includes, below so many open ones.
    pub fn take_file<F: Files>(
        &mut self,
        file: u32,
        depth: u32,
        files: &mut F,
    ) -> Result<(), AssembleFault>
        requires sound { IsSound self.old }
        requires inside { file < length self.old.sources.items }
        requires shallow { depth ≤ most_open }
        ensures goes { Goes (F.content files.old) self.old self.new }
        ensures takes { OnOk result (TakesFile depth (source_at self.old file) self.old self.new) }
        ensures sound { OnOk result (IsSound self.new) }
        ensures fault { IfErr result (IsDue (F.content files.old) (Rose (F.faults files.old) (F.faults files.new)) self.new (IsFileFault depth (source_at self.old file) (taken self.old))) }
        ensures stays { F.content files.new ≡ F.content files.old }
        ensures puts { F.put_faults files.new ≡ F.put_faults files.old }
        ensures later { F.faults files.old ≤ F.faults files.new }
    {
        let count = self.part_count(file);
        for next in 0..count {
            let part = self.part_at(file, next);
            match self.pass(file, part, depth, files)? {
                Some(inner) => self.take_file(inner, depth + 1, files)?,
                None => {}
            }
        }
        Ok(())
    }

    /// The list of all that was taken.
    pub fn finish(self) -> Result<Assembled, NoMemory>
        requires { IsSound self }
        ensures { IfOk result (IsFinished self) }
    {
        let files = files_of(self.alloc, self.sources)?;
        Ok(Assembled::new(files, self.placed, self.contracts, self.cstdio))
    }

    fn keep(&mut self, source: Source) -> Result<(), NoMemory>
        ensures ok { OnOk result (self.new.sources.items ≡ self.old.sources.items ++ source ∷ []) }
        ensures err { OnErr result (self.new.sources.items ≡ self.old.sources.items) }
        ensures names { self.new.names ≡ self.old.names }
        ensures bytes { self.new.bytes ≡ self.old.bytes }
        ensures placed { self.new.placed ≡ self.old.placed }
        ensures contracts { self.new.contracts ≡ self.old.contracts }
        ensures cstdio { self.new.cstdio ≡ self.old.cstdio }
    {
        self.sources.push(source)?;
        Ok(())
    }
}

/// The files that were read, without their parts.
fn files_of(alloc: Global, sources: Vec<Source>) -> Result<Items<SourceFile>, NoMemory>
    ensures { IfOk result (λ files. files ≡ files_of sources.items) }
{
    let mut files = Items::new(alloc);
    for source in sources {
        files.push(source.file)?;
    }
    Ok(files)
}

/// A number of items, of which memory has fewer than 2^32.
fn number(count: usize) -> Result<u32, NoMemory>
    ensures { IfOk result (λ number. number ≡ count) }
{
    match u32::try_from(count) {
        Ok(number) => Ok(number),
        Err(_) => Err(NoMemory),
    }
}
