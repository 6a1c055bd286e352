//! A head with an answer that is no reply.
ghost use Rattle.std.specs.Prelude.{◌≡◌, ◌++◌, IfOk, OnOk};
ghost use Rattle.transcript.specs.Lines.{conflict_line, full_line, refused_line, device_text, failed_line, ended_line};

use crate::pieces::{add, add_number};
use script::{Device, Name};
use std::alloc::AllocError;
use store_model::Lsn;

/// `HEAD conflict T`: the transaction of this name holds a conflicting lock.
pub(crate) fn conflict_line(mut head: Vec<u8>, holder: &Name) -> Result<Vec<u8>, AllocError>
    ensures { IfOk result (λ out. out.items ≡ conflict_line head.items holder.now) }
{
    add(&mut head, b" conflict ".as_slice())?;
    add(&mut head, holder.as_bytes())?;
    add(&mut head, b"\n".as_slice())?;
    Ok(head)
}

/// `HEAD full PAGES PENDING`.
pub(crate) fn full_line(mut head: Vec<u8>, pages: u64, pending: u64) -> Result<Vec<u8>, AllocError>
    ensures { IfOk result (λ out. out.items ≡ full_line head.items pages pending) }
{
    add(&mut head, b" full ".as_slice())?;
    add_number(&mut head, pages)?;
    add(&mut head, b" ".as_slice())?;
    add_number(&mut head, pending)?;
    add(&mut head, b"\n".as_slice())?;
    Ok(head)
}

/// `HEAD refused`.
pub(crate) fn refused_line(mut head: Vec<u8>) -> Result<Vec<u8>, AllocError>
    ensures { IfOk result (λ out. out.items ≡ refused_line head.items) }
{
    add(&mut head, b" refused\n".as_slice())?;
    Ok(head)
}

pub(crate) fn add_device(out: &mut Vec<u8>, device: Device) -> Result<(), AllocError>
    ensures { OnOk result (out.new.items ≡ out.old.items ++ device_text device) }
{
    match device {
        Device::Log => add(out, b"log".as_slice()),
        Device::Data => add(out, b"data".as_slice()),
        Device::Vault => add(out, b"vault".as_slice()),
    }
}

/// `HEAD log failed`, `HEAD vault failed`: a call of this device failed.
pub(crate) fn failed_line(mut head: Vec<u8>, device: Device) -> Result<Vec<u8>, AllocError>
    ensures { IfOk result (λ out. out.items ≡ failed_line head.items device) }
{
    add(&mut head, b" ".as_slice())?;
    add_device(&mut head, device)?;
    add(&mut head, b" failed\n".as_slice())?;
    Ok(head)
}

/// `HEAD ended N`: the life had ended, with the log durable up to this LSN.
pub(crate) fn ended_line(mut head: Vec<u8>, at: Lsn) -> Result<Vec<u8>, AllocError>
    ensures { IfOk result (λ out. out.items ≡ ended_line head.items at) }
{
    add(&mut head, b" ended ".as_slice())?;
    add_number(&mut head, at)?;
    add(&mut head, b"\n".as_slice())?;
    Ok(head)
}
