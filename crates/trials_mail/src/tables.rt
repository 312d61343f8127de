// The rows: calls, and what each of them answers, written by hand or by another program.
use crate::program::Calls;
use ml_address::{law_bounces, law_requests, law_senders};
use ml_header::{law_messages, law_names, law_parts, law_sent, law_unfolded};
use ml_reply::law_dates;
use std::test::Fail;
use trials_scripts::hold;

// Recipients, and what each of them asks for: every row of the grammar with its words in mixed, lower and upper case, more requests in lower
// case, what no row has, and what is not the list's.
const REQUESTS: &str = r"
let letters [97, 98, 99, 100, 101, 102, 103, 104, 105, 106, 107, 108, 109, 110, 111, 112, 97, 98, 99, 100]
let who Who \x7B local: [97], host: [98] \x7D
run address ask LIST@EX.org => 0 post | run address ask list@ex.org => 0 post | run address ask LIST@EX.ORG => 0 post
run address ask LIST-Help@Ex.Org => 0 help | run address ask list-help@ex.org => 0 help | run address ask LIST-HELP@EX.ORG => 0 help
run address ask list-OWNER@ex.org => 0 owner | run address ask list-owner@ex.org => 0 owner | run address ask LIST-OWNER@EX.ORG => 0 owner
run address ask list-Subscribe@ex.org => 0 subscribe List None | run address ask list-subscribe@ex.org => 0 subscribe List None | run address ask LIST-SUBSCRIBE@EX.ORG => 0 subscribe List None
run address ask List-Deny-SUBSCRIBE-a=b@ex.org => 0 subscribe Deny Some({who}) | run address ask list-deny-subscribe-a=b@ex.org => 0 subscribe Deny Some({who}) | run address ask LIST-DENY-SUBSCRIBE-a=b@EX.ORG => 0 subscribe Deny Some({who})
run address ask list-DIGEST-unsubscribe@ex.org => 0 unsubscribe Digest None | run address ask list-digest-unsubscribe@ex.org => 0 unsubscribe Digest None | run address ask LIST-DIGEST-UNSUBSCRIBE@EX.ORG => 0 unsubscribe Digest None
run address ask list-Unsubscribe-a=b=c.org@ex.org => 0 unsubscribe List Some(Who \x7B local: [97, 61, 98], host: [99, 46, 111, 114, 103] \x7D) | run address ask list-unsubscribe-a=b=c.org@ex.org => 0 unsubscribe List Some(Who \x7B local: [97, 61, 98], host: [99, 46, 111, 114, 103] \x7D) | run address ask LIST-UNSUBSCRIBE-a=b=c.org@EX.ORG => 0 unsubscribe List Some(Who \x7B local: [97, 61, 98], host: [99, 46, 111, 114, 103] \x7D)
run address ask list-allow-LIST@ex.org => 0 members Allow | run address ask list-allow-list@ex.org => 0 members Allow | run address ask LIST-ALLOW-LIST@EX.ORG => 0 members Allow
run address ask list-SC.1000000200.abcdefghijklmnopabcd-a=b@ex.org => 0 confirm Sc List 1000000200 {letters} {who} | run address ask list-sc.1000000200.abcdefghijklmnopabcd-a=b@ex.org => 0 confirm Sc List 1000000200 {letters} {who} | run address ask LIST-SC.1000000200.abcdefghijklmnopabcd-a=b@EX.ORG => 0 confirm Sc List 1000000200 {letters} {who}
run address ask list-Digest-Uc.0.abcdefghijklmnopabcd-a=b@ex.org => 0 confirm Uc Digest 0 {letters} {who} | run address ask list-digest-uc.0.abcdefghijklmnopabcd-a=b@ex.org => 0 confirm Uc Digest 0 {letters} {who} | run address ask LIST-DIGEST-UC.0.abcdefghijklmnopabcd-a=b@EX.ORG => 0 confirm Uc Digest 0 {letters} {who}
run address ask list-tC.253402300799.abcdefghijklmnopabcd-a=b@ex.org => 0 confirm Tc List 253402300799 {letters} {who} | run address ask list-tc.253402300799.abcdefghijklmnopabcd-a=b@ex.org => 0 confirm Tc List 253402300799 {letters} {who} | run address ask LIST-TC.253402300799.abcdefghijklmnopabcd-a=b@EX.ORG => 0 confirm Tc List 253402300799 {letters} {who}
run address ask list-Get.7@ex.org => 0 get 7 None | run address ask list-get.7@ex.org => 0 get 7 None | run address ask LIST-GET.7@EX.ORG => 0 get 7 None
run address ask list-GET.5_2@ex.org => 0 get 5 Some(2) | run address ask list-get.5_2@ex.org => 0 get 5 Some(2) | run address ask LIST-GET.5_2@EX.ORG => 0 get 5 Some(2)
run address ask list-Index.99999999@ex.org => 0 index 99999999 | run address ask list-index.99999999@ex.org => 0 index 99999999 | run address ask LIST-INDEX.99999999@EX.ORG => 0 index 99999999
run address ask list-thReaD.1@ex.org => 0 thread 1 | run address ask list-thread.1@ex.org => 0 thread 1 | run address ask LIST-THREAD.1@EX.ORG => 0 thread 1
run address ask list-Accept-1.abcdefghijklmnopabcd@ex.org => 0 accept 1 {letters} | run address ask list-accept-1.abcdefghijklmnopabcd@ex.org => 0 accept 1 {letters} | run address ask LIST-ACCEPT-1.abcdefghijklmnopabcd@EX.ORG => 0 accept 1 {letters}
run address ask list-REJECT-1000000000000000.abcdefghijklmnopabcd@ex.org => 0 reject 1000000000000000 {letters} | run address ask list-reject-1000000000000000.abcdefghijklmnopabcd@ex.org => 0 reject 1000000000000000 {letters} | run address ask LIST-REJECT-1000000000000000.abcdefghijklmnopabcd@EX.ORG => 0 reject 1000000000000000 {letters}
run address ask list-RETURN-1-a=b@ex.org => 0 bounce List 1 {who} | run address ask list-return-1-a=b@ex.org => 0 bounce List 1 {who} | run address ask LIST-RETURN-1-a=b@EX.ORG => 0 bounce List 1 {who}
run address ask list-digest-Return-12-a=b@ex.org => 0 bounce Digest 12 {who} | run address ask list-digest-return-12-a=b@ex.org => 0 bounce Digest 12 {who} | run address ask LIST-DIGEST-RETURN-12-a=b@EX.ORG => 0 bounce Digest 12 {who}
run address ask list-return-Warn-1001010000.abcdefghijklmnopabcd-a=b@ex.org => 0 bounce of a warning List 1001010000 {letters} {who} | run address ask list-return-warn-1001010000.abcdefghijklmnopabcd-a=b@ex.org => 0 bounce of a warning List 1001010000 {letters} {who} | run address ask LIST-RETURN-WARN-1001010000.abcdefghijklmnopabcd-a=b@EX.ORG => 0 bounce of a warning List 1001010000 {letters} {who}
run address ask list-digest-return-PROBE-5.abcdefghijklmnopabcd-a=b@ex.org => 0 bounce of a probe Digest 5 {letters} {who} | run address ask list-digest-return-probe-5.abcdefghijklmnopabcd-a=b@ex.org => 0 bounce of a probe Digest 5 {letters} {who} | run address ask LIST-DIGEST-RETURN-PROBE-5.abcdefghijklmnopabcd-a=b@EX.ORG => 0 bounce of a probe Digest 5 {letters} {who}
run address ask list-Return-@ex.org => 0 bounce of a reply List | run address ask list-return-@ex.org => 0 bounce of a reply List | run address ask LIST-RETURN-@EX.ORG => 0 bounce of a reply List
run address ask list-Digest-return-@ex.org => 0 bounce of a reply Digest | run address ask list-digest-return-@ex.org => 0 bounce of a reply Digest | run address ask LIST-DIGEST-RETURN-@EX.ORG => 0 bounce of a reply Digest
run address ask list-DENY-list@ex.org => 0 members Deny | run address ask list-deny-list@ex.org => 0 members Deny | run address ask LIST-DENY-LIST@EX.ORG => 0 members Deny
run address ask List-sC.1000000200.gejckjgcpngcagofoonm-g=h@ex.Org => 0 confirm Sc List 1000000200 [103, 101, 106, 99, 107, 106, 103, 99, 112, 110, 103, 99, 97, 103, 111, 102, 111, 111, 110, 109] Who \x7B local: [103], host: [104] \x7D | run address ask list-sc.1000000200.gejckjgcpngcagofoonm-g=h@ex.org => 0 confirm Sc List 1000000200 [103, 101, 106, 99, 107, 106, 103, 99, 112, 110, 103, 99, 97, 103, 111, 102, 111, 111, 110, 109] Who \x7B local: [103], host: [104] \x7D | run address ask LIST-SC.1000000200.gejckjgcpngcagofoonm-g=h@EX.ORG => 0 confirm Sc List 1000000200 [103, 101, 106, 99, 107, 106, 103, 99, 112, 110, 103, 99, 97, 103, 111, 102, 111, 111, 110, 109] Who \x7B local: [103], host: [104] \x7D
run address ask list-digest-subscribe-a=b@ex.org => 0 subscribe Digest Some({who})
run address ask list-unsubscribe@ex.org => 0 unsubscribe List None
run address ask list-deny-uc.7.abcdefghijklmnopabcd-a=b@ex.org => 0 confirm Uc Deny 7 {letters} {who}
run address ask list-get.5_20@ex.org => 0 get 5 Some(20)
run address ask list-reject-3.abcdefghijklmnopabcd@ex.org => 0 reject 3 {letters}
run address ask list-return-1-a=c=b.org@ex.org => 0 bounce List 1 Who \x7B local: [97, 61, 99], host: [98, 46, 111, 114, 103] \x7D
run address ask list-@ex.org => 0 other | run address ask list-get.1_0@ex.org => 0 other | run address ask list-get.@ex.org => 0 other | run address ask list-return-x@ex.org => 0 other | run address ask list-return-1-ab@ex.org => 0 other | run address ask list-get.007@ex.org => 0 other | run address ask list-get.0@ex.org => 0 other | run address ask list-get.100000000@ex.org => 0 other | run address ask list-get.1_@ex.org => 0 other | run address ask list-mod-subscribe@ex.org => 0 other | run address ask list-allow-return-1-a=b@ex.org => 0 other | run address ask list-helper@ex.org => 0 other | run address ask list-subscribe-@ex.org => 0 other | run address ask list-subscribe-ab@ex.org => 0 other | run address ask list-subscribe-a=b_c+d@ex.org => 0 other | run address ask list-subscribe-a=\xC3\xA9@ex.org => 0 other | run address ask list-sc.1.x-a=b@ex.org => 0 other | run address ask list-sc.1.ABCDEFGHIJKLMNOPABCD-a=b@ex.org => 0 other | run address ask list-sc.01.abcdefghijklmnopabcd-a=b@ex.org => 0 other | run address ask list-sc.253402300800.abcdefghijklmnopabcd-a=b@ex.org => 0 other | run address ask list-accept-1000000000000001.abcdefghijklmnopabcd@ex.org => 0 other | run address ask list-return-0-a=b@ex.org => 0 other | run address ask list-return@ex.org => 0 other | run address ask list-a@b@ex.org => 0 other
run address ask lists@ex.org => 0 none | run address ask list@ => 0 none | run address ask @ex.org => 0 none | run address ask lis@ex.org => 0 none | run address ask list@ex.com => 0 none | run address ask list => 0 none | run address ask list@x@ex.org => 0 none | run address ask '' => 0 none
";

// Requests, senders, codes (RFC 4231) and cookies.
const ADDRESSES: &str = r"
run address written => 0 list@ex.org\nlist-help@ex.org\nlist-digest-subscribe-a=b@ex.org\nlist-unsubscribe@ex.org\nlist-allow-list@ex.org\nlist-deny-uc.7.abcdefghijklmnopabcd-a=b@ex.org\nlist-get.5_20@ex.org\nlist-reject-3.abcdefghijklmnopabcd@ex.org\nlist-return-1-a=b@ex.org\nlist-digest-return-probe-5.abcdefghijklmnopabcd-a=b@ex.org\nlist-return-@ex.org\n
like address ask list-subscribe-{1..398:a}=b@ex.org => 0 subscribe *
run address ask list-subscribe-{1..399:a}=b@ex.org => 0 other
run address sender list-return-1- ex.org each a=c@B.org => 0 list-return-1-a=c=b.org@ex.org
run address sender list-return-1- ex.org all a=c@B.org => 0 list-return-1-@ex.org
run address unverp a=b=c.org => 0 Some(3)
run address unverp ab => 0 None
run address unverp a=b@c => 0 None
run address unverp =b => 0 None
run address unverp a= => 0 None
run address unverp '' => 0 None
input \x0B\x0B\x0B\x0B\x0B\x0B\x0B\x0B\x0B\x0B\x0B\x0B\x0B\x0B\x0B\x0B\x0B\x0B\x0B\x0BHi There | run address mac 20 32 => 0 b0344c61d8db38535ca8afceaf0bf12b881dc200c9833da726e9376c2e32cff7
input Jefewhat do ya want for nothing? | run address mac 4 32 => 0 5bdcc146bf60754e6a042426089575c75a003f089d2739839dec58b964ec3843
input \xAA\xAA\xAA\xAA\xAA\xAA\xAA\xAA\xAA\xAA\xAA\xAA\xAA\xAA\xAA\xAA\xAA\xAA\xAA\xAA{1..50:\xDD} | run address mac 20 32 => 0 773ea91e36800e46854db8ebd09181a72959098b3ef8c122d9635514ced565fe
input \x01\x02\x03\x04\x05\x06\x07\x08\x09\n\x0B\x0C\x0D\x0E\x0F\x10\x11\x12\x13\x14\x15\x16\x17\x18\x19{1..50:\xCD} | run address mac 25 32 => 0 82558a389a443c0ea4cc819899f2083a85f0faa3e578f8077a2e3ff46729665b
input \x0C\x0C\x0C\x0C\x0C\x0C\x0C\x0C\x0C\x0C\x0C\x0C\x0C\x0C\x0C\x0C\x0C\x0C\x0C\x0CTest With Truncation | run address mac 20 16 => 0 a3b6167473100ee06e0c796c2955552b
input {1..131:\xAA}Test Using Larger Than Block-Size Key - Hash Key First | run address mac 131 32 => 0 60e431591ee0b67f0d8a26aacbf5b77f8e0bc6213728c5140546040f0ee37f54
input {1..131:\xAA}This is a test using a larger than block-size key and a larger than block-size data. The key needs to be hashed before being used by the HMAC algorithm. | run address mac 131 32 => 0 9b09ffa71b942fcb27635fbcd5b0e944bfdc63644f0713938a7f51535c3a35e2
input {1..63:k}text | run address mac 63 32 => 0 c90d83e78c64ee16fe2eefa3e8a834d79d1d3d0ea483f8d9908323b714c7f134
input {1..64:k}text | run address mac 64 32 => 0 0414bb1d8c0c4556cdb2028727b16610ae377b1a194b6db1f853d4297f2329bc
input {1..65:k}text | run address mac 65 32 => 0 5b69580123e3d7e788b7e8352ac37a3247b911c5ec0837147b74109a6382d3f5
input \0\x01\x02\x03\x04\x05\x06\x07\x08\x09\n\x0B\x0C\x0D\x0E\x0F\x10\x11\x12\x13\x14\x15\x16\x17\x18\x19\x1A\x1B\x1C\x1D\x1E\x1F | run address cookie sc list 1000000200 g@h => 0 gejckjgcpngcagofoonm
input \0\x01\x02\x03\x04\x05\x06\x07\x08\x09\n\x0B\x0C\x0D\x0E\x0F\x10\x11\x12\x13\x14\x15\x16\x17\x18\x19\x1A\x1B\x1C\x1D\x1E\x1F | run address cookie hold mod 1000000000 1 => 0 dlchffgkeobljkocbhcg
input {1..65:\xAA} | run address cookie uc digest 0 '' => 0 nofgekplibgnapibjofn
input  | run address cookie warn list last a@b => 0 hchjehcfdacicogapnbh
run address ok gejckjgcpngcagofoonm 1000000199 => 0 false
run address ok gejckjgcpngcagofoonm 1000000200 => 0 true
run address ok gejckjgcpngcagofoonm 1001000200 => 0 true
run address ok gejckjgcpngcagofoonm 1001000201 => 0 false
run address ok gejckjgcpngcagofooon 1000000200 => 0 false
run address good key 1000000199 1000000200 gejckjgcpngcagofoonm 1001000200 => 0 false
run address good key 1000000200 1000000200 gejckjgcpngcagofoonm 1001000200 => 0 true
run address good key 1000000300 1000000200 gejckjgcpngcagofoonm 1001000200 => 0 true
run address good none 1000000300 1000000200 gejckjgcpngcagofoonm 1000000200 => 0 false
run address good key 1000000300 1000000301 dhcepojmalbdbahddbgn 1000000400 => 0 false
";

// Messages. What the list adds has 276 bytes. Of the last six nothing is to be left out, and their empty line is an LF, so each is sent as it
// is: 10,000 lines, a field of 1 MiB in one line and in 65,536, a line of 998 and one of 100,000 bytes, and a body of 1 MiB in one line.
const MESSAGES: &str = r"
let added Mailing-List: contact list-help@ex.org; run by ezmlm\nPrecedence: bulk\nList-Post: <mailto:list@ex.org>\nList-Help: <mailto:list-help@ex.org>\nList-Unsubscribe: <mailto:list-unsubscribe@ex.org>\nList-Subscribe: <mailto:list-subscribe@ex.org>\nDelivered-To: mailing list list@ex.org\n
let post Return-Path: <a@b>\nReceived: from mx.b (mx.b [192.0.2.1])\n\x09by ex.org (Postfix) with ESMTP id 1;\n Thu, 1 Jan 2026 00:00:00 +0000\nDKIM-Signature: v=1; a=rsa-sha256; d=b;\n  h=from:to:subject;\n  b=AAAA\nFrom: \x22A B\x22 <a@b>\nTo: \x22The list\x22 <list@ex.org>\nSubject: A long subject\n that is folded\nMIME-Version: 1.0\nContent-Type: multipart/alternative; boundary=\x22x\x22\n\n--x\n\nhi\n--x--\n
run header fields => 0 ()
input \n | run header fields => 0 ()
input \x0D | run header fields => 0 ()
input \x0D\nx | run header fields => 0 (x)
input \x0Dx | run header fields => 0 (\x0Dx)
input \nA:b\n | run header fields => 0 (A:b\n)
input A:b\n\nc | run header fields => 0 [A|b\n|A:b\n](c)
input A: b\x0D\nC:d\x0D\n\x0D\ne\x0D\n | run header fields => 0 [A| b\x0D\n|A: b\x0D\n][C|d\x0D\n|C:d\x0D\n](e\x0D\n)
input A: b\x0D\nC:d\n\x0D\ne\n\x0D\n | run header fields => 0 [A| b\x0D\n|A: b\x0D\n][C|d\n|C:d\n](e\n\x0D\n)
input A: b\n c\n\x09d\nE:\n\n | run header fields => 0 [A| b\n c\n\x09d\n|A: b\n c\n\x09d\n][E|\n|E:\n]()
input Subject: x | run header fields => 0 [Subject| x|Subject: x]()
input A:b\n\x20 | run header fields => 0 [A|b\n |A:b\n ]()
input A:b\nno field\n\nc | run header fields => 0 [A|b\n|A:b\n](no field\n\nc)
input \x20A:b\nC:d\n\ne | run header fields => 0 ( A:b\nC:d\n\ne)
input \x09A:b\nC:d\n\ne | run header fields => 0 (\x09A:b\nC:d\n\ne)
input A\0:b\nC:d\n | run header fields => 0 (A\0:b\nC:d\n)
input :b\n | run header fields => 0 (:b\n)
input A :b\n | run header fields => 0 (A :b\n)
input !~:b:c\n | run header fields => 0 [!~|b:c\n|!~:b:c\n]()
input To: a\nTO: b\n\nto: c | run header whole => 0 To: a\nTO: b\n\nto: c
input To: a\nTO: b\n\nto: c | run header field tO => 0 \x20a\n
input To: a\nTO: b\n\nto: c | run header field T => 0 none
input To: a\nTO: b\n\nto: c | run header field To\x20 => 0 none
input subject: a\n | run header subject => 0 a
input SUBJECT:a\nSubject: b\n | run header subject => 0 a
input To: a\n | run header subject => 0 none
input Subject:\n | run header subject => 0
input Subject: \x09\n \n\x09\n | run header subject => 0
input Subject:\n one\x0D\n\x09two \x0D\n three\n four\x09 \n | run header subject => 0 one\x09two  three four
input Subject: one\n\x09two\n three\x0D\n \x09four\n | run header subject => 0 one\x09two three \x09four
input Subject: a\x0Db\x0D\x0D\n c | run header subject => 0 a\x0Db\x0D c
input Subject: a\x0D | run header subject => 0 a\x0D
input \x20\nSubject: a\n | run header subject => 0 none
input {post} | run header sent => 0 {added}Received: from mx.b (mx.b [192.0.2.1])\n\x09by ex.org (Postfix) with ESMTP id 1;\n Thu, 1 Jan 2026 00:00:00 +0000\nDKIM-Signature: v=1; a=rsa-sha256; d=b;\n  h=from:to:subject;\n  b=AAAA\nFrom: \x22A B\x22 <a@b>\nTo: \x22The list\x22 <list@ex.org>\nSubject: A long subject\n that is folded\nMIME-Version: 1.0\nContent-Type: multipart/alternative; boundary=\x22x\x22\n\n--x\n\nhi\n--x--\n
input From: a@b\nTo: list@ex.org\nSubject: hello\n\nhi\n | run header sent => 0 {added}From: a@b\nTo: list@ex.org\nSubject: hello\n\nhi\n
input {post} | run header sent_trailed => 0 {added}Received: from mx.b (mx.b [192.0.2.1])\n\x09by ex.org (Postfix) with ESMTP id 1;\n Thu, 1 Jan 2026 00:00:00 +0000\nDKIM-Signature: v=1; a=rsa-sha256; d=b;\n  h=from:to:subject;\n  b=AAAA\nFrom: \x22A B\x22 <a@b>\nTo: \x22The list\x22 <list@ex.org>\nSubject: A long subject\n that is folded\nMIME-Version: 1.0\nContent-Type: multipart/alternative; boundary=\x22x\x22\n\n--x\n\nhi\n--x--\n
run header without a\n => 0 \n
input Subject: x | run header without '' => 0 Subject: x\n\n
input A:b\nC:d | run header without '' => 0 A:b\nC:d\n\n
input A:b\n c\nC:d\n\ne | run header without a\n => 0 C:d\n\ne
input A:b\nC:d\na:e\n\n | run header without c\nA\n => 0 \n
input A:b\x0D\nC:d\x0D\n\x0D\ne\x0D\n | run header without x\nc\n => 0 A:b\x0D\n\ne\x0D\n
input From: a@b\x0D\nSubject: hello\x0D\n\x0D\nhi\x0D\n | run header without '' => 0 From: a@b\x0D\nSubject: hello\x0D\n\nhi\x0D\n
input A:b\nC:d\n | run header without a\nc => 0 C:d\n\n
input A:b\nA-B:d\n | run header without \nA-\n => 0 A:b\nA-B:d\n\n
input a\0b: c\nA:b\n\nd | run header without a\n => 0 \na\0b: c\nA:b\n\nd
input \x20A:b\nC:d\n | run header without c\n => 0 \n A:b\nC:d\n
input Subject: x\n\n | run header prefixed [l] => 0 Subject: [l] x\n\n
input Subject:x\n\n | run header prefixed [l] => 0 Subject: [l] x\n\n
input Subject:\x09x\n\n | run header prefixed [l] => 0 Subject: [l]\x09x\n\n
input Subject:\n x\n\n | run header prefixed [l] => 0 Subject: [l] \n x\n\n
input Subject: | run header prefixed [l] => 0 Subject: [l] \n\n
input Subject:\n\n | run header prefixed [l] => 0 Subject: [l] \n\n
input To: x\n\nSubject: y | run header prefixed [l] => 0 To: x\n\nSubject: y
input SUBJECT: x\nSubject: y\n\n | run header prefixed [l] => 0 SUBJECT: [l] x\nSubject: y\n\n
input Subject: x\nSubject: [l]\n\n | run header prefixed [l] => 0 Subject: [l] x\nSubject: [l]\n\n
input Subject: Re: [L] x\n\n | run header prefixed [l] => 0 Subject: Re: [L] x\n\n
input Subject: [l]x\n\n | run header prefixed [L] => 0 Subject: [l]x\n\n
input Subject: [\n l] x\n\n | run header prefixed [l] => 0 Subject: [l] [\n l] x\n\n
input Subject: the\x0D\n List x\n\n | run header prefixed THE\x20LIST => 0 Subject: the\x0D\n List x\n\n
input A:b\n\nhi\n | run header trailed => 0 A:b\n\nhi\n--\n
input A:b\n\nhi | run header trailed => 0 A:b\n\nhi\n--\n
input A:b\n\n | run header trailed => 0 A:b\n\n--\n
input A:b\n | run header trailed => 0 A:b\n\n--\n
input hi there\n | run header trailed => 0 \nhi there\n--\n
input A:b\n\nhi\x0D | run header trailed => 0 A:b\n\nhi\x0D\n--\n
input Content-Type: Text/Plain; charset=x\n\nhi\n | run header trailed => 0 Content-Type: Text/Plain; charset=x\n\nhi\n--\n
input Content-Type:\n\x09text/plain\n\nhi\n | run header trailed => 0 Content-Type:\n\x09text/plain\n\nhi\n--\n
input content-type: text/html\n\nhi\n | run header trailed => 0 content-type: text/html\n\nhi\n
input Content-Type:\n\nhi\n | run header trailed => 0 Content-Type:\n\nhi\n
input Content-Transfer-Encoding: BASE64\n\naGk=\n | run header trailed => 0 Content-Transfer-Encoding: BASE64\n\naGk=\n
input Content-Transfer-Encoding: 8bit\n\nhi\n | run header trailed => 0 Content-Transfer-Encoding: 8bit\n\nhi\n--\n
input Content-Type: text/plain\nContent-Transfer-Encoding:\n base64 \n\naGk=\n | run header trailed => 0 Content-Type: text/plain\nContent-Transfer-Encoding:\n base64 \n\naGk=\n
input {1..10000:X:\x20y\n}From: a@b\nSubject: hello\n\nhi\n | run header long => 0 10002 true
input Long:\x20{1..65536:0123456789abcdef}\nFrom: a@b\nSubject: hello\n\nhi\n | run header long => 0 3 true
input Long: x{1..65536:\n\x20a\x20fold\x20of\x2015\x20b}\nFrom: a@b\nSubject: hello\n\nhi\n | run header long => 0 3 true
input L:\x20{1..995:x}\nFrom: a@b\nSubject: hello\n\nhi\n | run header long => 0 3 true
input L:\x20{1..99997:x}\nFrom: a@b\nSubject: hello\n\nhi\n | run header long => 0 3 true
input L: x\n\n{1..65536:0123456789abcdef}From: a@b\nSubject: hello\n\nhi\n | run header long => 0 1 true
input From: a@b\nTo: list@ex.org\nSubject: hello\n\nhi\n | run header sent size => 0 321
";

// Mails in full.
const MAILS: &str = r"
let front Mailing-List: contact list-help@ex.org; run by ezmlm\nPrecedence: bulk\nFrom: list-help@ex.org\nTo: 
let date Date: Sun, 09 Sep 2001 01:46:40 -0000\nSubject:\x20
run reply sc ann@a.org digest list-sc.digest@ex.org => 0 {front}ann@a.org\nReply-To: list-sc.digest@ex.org\n{date}confirm subscribe\n\nTo add bob@b.org to digest of list@ex.org, write to\nlist-sc.digest@ex.org\n
run reply tc list-owner@ex.org list list-tc.list@ex.org => 0 {front}list-owner@ex.org\nReply-To: list-tc.list@ex.org\n{date}confirm subscribe\n\nTo add bob@b.org to list of list@ex.org, write to\nlist-tc.list@ex.org\n
run reply uc ann@a.org allow list-uc.allow@ex.org => 0 {front}ann@a.org\nReply-To: list-uc.allow@ex.org\n{date}confirm unsubscribe\n\nTo remove bob@b.org from allow of list@ex.org, write to\nlist-uc.allow@ex.org\n
run reply welcome ann@a.org list => 0 {front}ann@a.org\n{date}welcome\n\nbob@b.org was added to list of list@ex.org.\n
run reply goodbye ann@a.org digest => 0 {front}ann@a.org\n{date}goodbye\n\nbob@b.org was removed from digest of list@ex.org.\n
run reply already ann@a.org deny => 0 {front}ann@a.org\n{date}already subscribed\n\nbob@b.org is in deny of list@ex.org already.\n
run reply absent ann@a.org mod => 0 {front}ann@a.org\n{date}not subscribed\n\nbob@b.org is not in mod of list@ex.org.\n
run reply help ann@a.org list => 0 {front}ann@a.org\n{date}help\n\nMail to one of these addresses:\nlist-subscribe@ex.org\nlist-unsubscribe@ex.org\nlist-digest-subscribe@ex.org\nlist-get.1_10@ex.org\nlist-index.1@ex.org\nlist-thread.1@ex.org\nlist-owner@ex.org\n
input No such posts.\n | run reply archive ann@a.org list => 0 {front}ann@a.org\n{date}archive of list@ex.org\n\nNo such posts.\n
run reply members ann@a.org digest => 0 {front}ann@a.org\n{date}members of digest\n\n
input cat@c.org\nBob@b.org\n | run reply members ann@a.org digest => 0 {front}ann@a.org\n{date}members of digest\n\ncat@c.org\nBob@b.org\n
input {0..9:m00%@b.org\n}{10..99:m0%@b.org\n}{100..999:m%@b.org\n} | run reply members ann@a.org digest => 0 {front}ann@a.org\n{date}members of digest\n\n{0..9:m00%@b.org\n}{10..99:m0%@b.org\n}{100..999:m%@b.org\n}
input Subject: cats\n\nMeow. | run reply moderate list-owner@ex.org list list-accept.12@ex.org => 0 {front}list-owner@ex.org\nReply-To: list-accept.12@ex.org\n{date}moderate post 12\n\nAccept: list-accept.12@ex.org\nReject: list-reject.12@ex.org\n\nSubject: cats\n\nMeow.
run reply moderate list-owner@ex.org list list-accept.12@ex.org => 0 {front}list-owner@ex.org\nReply-To: list-accept.12@ex.org\n{date}moderate post 12\n\nAccept: list-accept.12@ex.org\nReject: list-reject.12@ex.org\n\n
input Subject: cats\n\nMeow.\n | run reply rejected ann@a.org list => 0 {front}ann@a.org\n{date}post rejected\n\nThe moderators of list@ex.org rejected this post.\n\nSubject: cats\n\nMeow.\n
input Subject: cats\n\nMeow.\n | run reply expired ann@a.org list => 0 {front}ann@a.org\n{date}post not moderated\n\nNo moderator of list@ex.org answered in time.\n\nSubject: cats\n\nMeow.\n
at 0 | input 1\n12\n | run reply warn ann@a.org list => 0 {front}ann@a.org\nDate: Thu, 01 Jan 1970 00:00:00 -0000\nSubject: bounce warning\n\nMail to bob@b.org from list of list@ex.org bounced. Missed numbers:\n1\n12\n
input 99999999\n | run reply warn ann@a.org digest => 0 {front}ann@a.org\n{date}bounce warning\n\nMail to bob@b.org from digest of list@ex.org bounced. Missed numbers:\n99999999\n
input {100..199:%\n} | run reply warn ann@a.org digest => 0 {front}ann@a.org\n{date}bounce warning\n\nMail to bob@b.org from digest of list@ex.org bounced. Missed numbers:\n{100..199:%\n}
run reply probe ann@a.org list => 0 {front}ann@a.org\n{date}bounce probe\n\nA warning to bob@b.org bounced. If this mail bounces too, bob@b.org is removed from list of list@ex.org.\n
run reply members ann@a.org digest size => 0 173
";

// Dates on both sides of the ends of February.
const DATES: &str = r"
at 0 | run reply date => 0 Thu, 01 Jan 1970 00:00:00 -0000
at 951782399 | run reply date => 0 Mon, 28 Feb 2000 23:59:59 -0000
at 951782400 | run reply date => 0 Tue, 29 Feb 2000 00:00:00 -0000
at 1000000000 | run reply date => 0 Sun, 09 Sep 2001 01:46:40 -0000
at 4107542399 | run reply date => 0 Sun, 28 Feb 2100 23:59:59 -0000
at 4107542400 | run reply date => 0 Mon, 01 Mar 2100 00:00:00 -0000
at 253402300799 | run reply date => 0 Fri, 31 Dec 9999 23:59:59 -0000
";

#[test]
fn rows_are_answered(rt: HostRuntime) -> Result<(), Fail> {
    let alloc = rt.alloc();
    hold::<Calls>(alloc, "requests", REQUESTS)?;
    hold::<Calls>(alloc, "addresses", ADDRESSES)?;
    hold::<Calls>(alloc, "messages", MESSAGES)?;
    hold::<Calls>(alloc, "mails", MAILS)?;
    hold::<Calls>(alloc, "dates", DATES)
}

#[test]
fn the_laws_can_be_called() {
    law_requests();
    law_senders();
    law_bounces();
    law_messages();
    law_names();
    law_parts();
    law_sent();
    law_unfolded();
    law_dates();
}
