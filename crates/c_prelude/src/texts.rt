//! The text of each header, as C. The functions `__filc_..` that no text has are intrinsics. What needs
//! `stddef.h` includes it, and a header is put in once a file, so its text comes once.

ghost use Rattle.std.specs.Prelude.{◌≡◌};
ghost use Rattle.c_prelude.specs.Texts as spec;

/// `stddef.h`, in bytes.
#[tactic(auto, unfolding(crate::specs::Texts::stddef))]
pub fn stddef() -> &'static [u8]
    ensures { result.now ≡ spec.stddef }
{
    b"\
typedef unsigned long size_t;typedef long ptrdiff_t;
#define NULL ((void*)0)
void __filc_copy(void*d,const void*s,size_t n){size_t i=0;
if(((size_t)d|(size_t)s)%8==0)for(;i+8<=n;i+=8)
*(void**)((char*)d+i)=*(void*const*)((const char*)s+i);
for(;i<n;i++)((char*)d)[i]=((const char*)s)[i];}
"
}

/// `stdint.h`, in bytes.
#[tactic(auto, unfolding(crate::specs::Texts::stdint))]
pub fn stdint() -> &'static [u8]
    ensures { result.now ≡ spec.stdint }
{
    b"\
typedef signed char int8_t;
typedef short int16_t;
typedef int int32_t;
typedef long int64_t;
typedef unsigned char uint8_t;
typedef unsigned short uint16_t;
typedef unsigned int uint32_t;
typedef unsigned long uint64_t;
typedef long intptr_t;
typedef unsigned long uintptr_t;
#define INT8_MIN (-128)
#define INT8_MAX 127
#define INT16_MIN (-32768)
#define INT16_MAX 32767
#define INT32_MIN (-2147483647-1)
#define INT32_MAX 2147483647
#define INT64_MIN (-9223372036854775807L-1)
#define INT64_MAX 9223372036854775807L
#define UINT8_MIN 0
#define UINT8_MAX 255
#define UINT16_MIN 0
#define UINT16_MAX 65535
#define UINT32_MIN 0U
#define UINT32_MAX 4294967295U
#define UINT64_MIN 0UL
#define UINT64_MAX 18446744073709551615UL
#define INTPTR_MIN (-9223372036854775807L-1)
#define INTPTR_MAX 9223372036854775807L
#define UINTPTR_MIN 0UL
#define UINTPTR_MAX 18446744073709551615UL
#define SIZE_MAX 18446744073709551615UL
"
}

/// `limits.h`, in bytes.
#[tactic(auto, unfolding(crate::specs::Texts::limits))]
pub fn limits() -> &'static [u8]
    ensures { result.now ≡ spec.limits }
{
    b"\
#define CHAR_BIT 8
#define SCHAR_MIN (-128)
#define SCHAR_MAX 127
#define CHAR_MIN (-128)
#define CHAR_MAX 127
#define SHRT_MIN (-32768)
#define SHRT_MAX 32767
#define INT_MIN (-2147483647-1)
#define INT_MAX 2147483647
#define LONG_MIN (-9223372036854775807L-1)
#define LONG_MAX 9223372036854775807L
#define LLONG_MIN (-9223372036854775807LL-1)
#define LLONG_MAX 9223372036854775807LL
#define UCHAR_MAX 255
#define USHRT_MAX 65535
#define UINT_MAX 4294967295U
#define ULONG_MAX 18446744073709551615UL
#define ULLONG_MAX 18446744073709551615ULL
"
}

/// `stdbool.h`, in bytes.
#[tactic(auto, unfolding(crate::specs::Texts::stdbool))]
pub fn stdbool() -> &'static [u8]
    ensures { result.now ≡ spec.stdbool }
{
    b"\
#define bool _Bool
#define true 1
#define false 0
"
}

/// `stdlib.h`, in bytes.
#[tactic(auto, unfolding(crate::specs::Texts::stdlib))]
pub fn stdlib() -> &'static [u8]
    ensures { result.now ≡ spec.stdlib }
{
    b"\
#include <stddef.h>
void*malloc(size_t n){return __filc_new(n);}
void free(void*p){__filc_free(p);}
void*calloc(size_t a,size_t b){
if(b!=0&&a>18446744073709551615UL/b)return NULL;return __filc_new(a*b);}
void*realloc(void*p,size_t n){if(p==NULL)return __filc_new(n);
size_t m=__filc_size(p);void*q=__filc_new(n);if(q==NULL)return NULL;
__filc_copy(q,p,m<n?m:n);__filc_free(p);return q;}
void exit(int s){__filc_exit(s);}
void abort(void){__filc_abort();}
int abs(int x){return x<0?-x:x;}
long labs(long x){return x<0?-x:x;}
"
}

/// `string.h`, in bytes.
#[tactic(auto, unfolding(crate::specs::Texts::string))]
pub fn string() -> &'static [u8]
    ensures { result.now ≡ spec.string }
{
    b"\
#include <stddef.h>
void*memcpy(void*d,const void*s,size_t n){__filc_copy(d,s,n);return d;}
void*memmove(void*d,const void*s,size_t n){
if((size_t)d<=(size_t)s||(size_t)d-(size_t)s>=n)__filc_copy(d,s,n);
else{size_t i=n;int w=((size_t)d|(size_t)s)%8==0;
while(i>0)if(w&&i%8==0){i-=8;
*(void**)((char*)d+i)=*(void*const*)((const char*)s+i);}
else{i--;((char*)d)[i]=((const char*)s)[i];}}return d;}
void*memset(void*d,int c,size_t n){
for(size_t i=0;i<n;i++)((unsigned char*)d)[i]=c;return d;}
int memcmp(const void*a,const void*b,size_t n){const unsigned char*x=a,*y=b;
for(size_t i=0;i<n;i++)if(x[i]!=y[i])return x[i]<y[i]?-1:1;return 0;}
size_t strlen(const char*s){size_t n=0;while(s[n])n++;return n;}
int strncmp(const char*a,const char*b,size_t n){for(size_t i=0;i<n;i++){
unsigned char x=a[i],y=b[i];if(x!=y)return x<y?-1:1;if(x==0)return 0;}
return 0;}
int strcmp(const char*a,const char*b){
return strncmp(a,b,18446744073709551615UL);}
char*strcpy(char*d,const char*s){size_t i=0;while((d[i]=s[i]))i++;return d;}
char*strcat(char*d,const char*s){strcpy(d+strlen(d),s);return d;}
char*strchr(const char*s,int c){for(;;s++){if(*s==(char)c)return(char*)s;
if(*s==0)return NULL;}}
"
}

/// `stdio.h`, in bytes.
#[tactic(auto, unfolding(crate::specs::Texts::stdio))]
pub fn stdio() -> &'static [u8]
    ensures { result.now ≡ spec.stdio }
{
    b"\
#include <stddef.h>
#define EOF (-1)
#define printf __filc_printf
static _Atomic int __filc_out_lock;
static int __filc_put(const char*s){int n=0;
for(;s[n];n++)__filc_out(s[n]);return n;}
static int __filc_put_unsigned(unsigned long v,unsigned long b){int n=0;
if(v>=b)n=__filc_put_unsigned(v/b,b);
__filc_out(\"0123456789abcdef\"[v%b]);return n+1;}
static int __filc_put_signed(long v){if(v<0){__filc_out('-');
return 1+__filc_put_unsigned(0-(unsigned long)v,10);}
return __filc_put_unsigned(v,10);}
int putchar(int c){__filc_lock(&__filc_out_lock);__filc_out(c);
__filc_out_lock=0;return(unsigned char)c;}
int puts(const char*s){__filc_lock(&__filc_out_lock);__filc_put(s);
__filc_out('\\n');__filc_out_lock=0;return 0;}
int getchar(void){return __filc_in();}
"
}
