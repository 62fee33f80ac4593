//! The readers of a table of symbols and of a raw trace, whose interpreted lines are written while it is read.
ghost use Rattle.std.specs.Prelude.{◌≡◌};
ghost use Rattle.interpret.specs.SymbolList.{symbols_of};
ghost use Rattle.interpret.specs.InterpreterState.{StandsFor};
ghost use Rattle.trace_reports.specs.InterpretReport.{interpret_report, symbols_report};

use crate::symbol_file_fault::SymbolFileFault;
use command_frame::{FilePair, LineRefusal, LineReport, LineTaker};
use hp_num::NoMemory;
use ht_trace::LineError;
use interpret::{Interpreter, SymbolFault, Symbols};
use std::alloc::Global;
use trace_reading::TraceFault;

/// What was read of a table of symbols.
#[derive(Drop)]
pub struct SymbolReader {
    pub symbols: Symbols,
}

impl LineTaker for SymbolReader {
    type Fault = SymbolFileFault;

    ghost report = { λ _. symbols_report };

    ghost has_taken = { λ reader lines. reader.symbols ≡ symbols_of lines };

    ghost is_sound = { λ _. Unit {0} };

    ghost measure = { λ _. 0 };

    fn line(
        &mut self,
        line: &[u8],
        _output: &mut Vec<u8>,
    ) -> Result<(), LineRefusal<SymbolFileFault>> {
        match self.symbols.line(line) {
            Ok(()) => Ok(()),
            Err(SymbolFault::NoMemory) => Err(LineRefusal::NoMemory),
            Err(fault) => Err(LineRefusal::Fault(SymbolFileFault::Line(fault))),
        }
    }

    fn end(&self, _ended: bool) -> Result<(), SymbolFileFault> {
        Ok(())
    }
}

/// What was read of a raw trace.
#[derive(Drop)]
pub struct RawReader {
    pub interpreter: Interpreter,
}

impl LineTaker for RawReader {
    type Fault = TraceFault;

    ghost report = { λ reader. interpret_report reader.interpreter.symbols };

    ghost has_taken = { λ reader. StandsFor reader.interpreter reader.interpreter.symbols };

    ghost is_sound = { λ _. Unit {0} };

    ghost measure = { λ _. 0 };

    fn line(&mut self, line: &[u8], output: &mut Vec<u8>) -> Result<(), LineRefusal<TraceFault>> {
        match self.interpreter.line(line, output) {
            Ok(()) => Ok(()),
            Err(LineError::NoMemory) => Err(LineRefusal::NoMemory),
            Err(error) => Err(LineRefusal::Fault(TraceFault::Line(error))),
        }
    }

    fn end(&self, _ended: bool) -> Result<(), TraceFault> {
        match self.interpreter.end() {
            Ok(()) => Ok(()),
            Err(error) => Err(TraceFault::Line(error)),
        }
    }

    #[inline(always)]
    fn front(&mut self, ready: &[u8], output: &mut Vec<u8>) -> Option<usize> {
        self.interpreter.take_front(ready, output)
    }
}

impl LineReport for RawReader {
    type Rest = Vec<u8>;

    fn finish(self, alloc: Global) -> Result<Vec<u8>, LineRefusal<TraceFault>> {
        Ok(Vec::new(alloc))
    }

    fn close(self) {}
}

/// A table of symbols and a raw trace.
#[derive(Clone, Copy)]
pub struct SymbolsAndTrace;

impl FilePair for SymbolsAndTrace {
    ghost use Rattle.interpret.specs.SymbolList.{symbols_of};
    ghost use Rattle.trace_reports.specs.InterpretReport.{interpret_report};

    type First = SymbolReader;

    type Second = RawReader;

    ghost second_report = { λ _ lines. interpret_report (symbols_of lines) };

    fn second(&self, alloc: Global, first: SymbolReader) -> Result<RawReader, NoMemory> {
        Ok(RawReader {
            interpreter: Interpreter::new(alloc, first.symbols),
        })
    }
}
