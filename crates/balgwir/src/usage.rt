// What `help` prints, and what stands behind the reason for a wrong use.
pub const USAGE: &str = "usage:
  balgwir reply FILE             print what the SMTP reply in FILE lists
  balgwir explain FILE           print the same, and what it means for mail that requires TLS
  balgwir covers PATTERN NAME    print whether a name or a pattern covers a host name
  balgwir tag LINE HEADER covered|clear
                                 print the tag and the path of a message by the MAIL line in the file LINE, which came
                                 covered by TLS or in the clear, and the header section in the file HEADER
  balgwir policy FILE NAME       print the mode of the MTA-STS policy in FILE, and whether it vouches for a host name
  balgwir sheet FILE             print the records of the sheet in FILE, or the first one that breaks the sheet's form
  balgwir help                   print this text
example:
  balgwir covers '*.d.example' m.d.example";
